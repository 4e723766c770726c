// Images: rows of bytes that give a machine's numbers and its first memory words.
#![tactic(auto)]

pub mod header;

ghost use Rattle.std.specs.Prelude.{◌≡◌, Some};
ghost use Rattle.image.specs.Image.{ReadAs};
ghost use Rattle.image.specs.Refusals.{number as refusal_number, reason};
ghost use Rattle.memory.specs.Bytes.{WordIs};

use crate::header::{HEADER_BYTES, Header, HeaderWord};
use memory::bytes::word_at;
use std::error::Error;
use std::fmt;

/// Why a row of bytes is no image.
#[derive(Clone, Copy, PartialEq, Eq, Debug)]
pub enum Refusal {
    /// the length is no multiple of 4, or too short for a header
    Length,
    /// the header word with this number breaks its rule
    Header(u32),
    /// the length is not the one that the header gives
    Size,
}

impl Refusal {
    /// The number by which users know the refusal.
    pub fn number(self) -> u32
        ensures { result ≡ refusal_number self }
    {
        // a match, since a variant that holds a value cannot be cast
        match self {
            Refusal::Length => 2,
            Refusal::Header(_) => 5,
            Refusal::Size => 6,
        }
    }
}

// Written out, since a derive says nothing of the text in `output`.
impl fmt::Display for Refusal {
    ghost output = { λ e. Some (reason e) };

    fn fmt<W: fmt::Write>(&self, f: &mut fmt::Formatter<W>) -> fmt::Result {
        match self {
            Refusal::Length => {
                f.write_str("the length is not a multiple of 4, or less than 28 bytes")
            }
            Refusal::Header(position) => match HeaderWord::at(*position) {
                Some(word) => write!(f, "{word}"),
                None => f.write_str("a header word breaks its rule"),
            },
            Refusal::Size => {
                f.write_str("the length is not 28 bytes and 4 for each memory word given")
            }
        }
    }
}

impl Error for Refusal {}

/// An accepted image.
#[derive(Clone, Copy)]
pub struct Image<'a> {
    header: Header,
    // the bytes after the header
    memory: &'a [u8],
}

impl<'a> Image<'a> {
    /// The image that the bytes are, or the first refusal that they meet.
    pub fn read(bytes: &'a [u8]) -> Result<Image<'a>, Refusal>
        ensures { ReadAs bytes.now result }
    {
        if bytes.len() % 4 != 0 || bytes.len() < HEADER_BYTES {
            return Err(Refusal::Length);
        }
        let header = Header::of(bytes);
        header.check()?;
        if bytes.len() != HEADER_BYTES + 4 * header.given as usize {
            return Err(Refusal::Size);
        }
        Ok(Image {
            header,
            memory: &bytes[HEADER_BYTES..],
        })
    }

    /// The image's numbers.
    pub fn header(&self) -> Header
        ensures { result ≡ self.now.header }
    {
        self.header
    }

    /// The memory word at an index, if the image gives one.
    pub fn word(&self, index: usize) -> Option<u32>
        ensures { WordIs self.now.memory.now index result }
    {
        word_at(self.memory, index)
    }
}
