// The first seven words of an image.
ghost use Rattle.std.specs.Prelude.{◌≡◌, ◌≤◌, length, map, Some};
ghost use Rattle.image.specs.Image.{Judged, addresses, asked, header as header_of, header_questions};
ghost use Rattle.image.specs.Refusals.{position as position_of, header_word, rule};

use crate::Refusal;
use memory::bytes::word_at;
use std::array::from_fn;
use std::fmt;

/// The length of a header.
pub const HEADER_BYTES: usize = 28;

const MOST_WORDS: u32 = memory::MOST_WORDS as u32;

const LONGEST_PERIOD: u32 = 65535;

const MOST_OUTPUTS: u32 = 16384;

/// The numbers of an image.
#[derive(Clone, Copy, PartialEq, Eq, Debug)]
pub struct Header {
    /// words of memory
    pub words: u32,
    /// words of text, the first ones of memory
    pub text: u32,
    /// memory words that the image gives
    pub given: u32,
    /// byte address of the first instruction
    pub entry: u32,
    /// the watchdog's period
    pub period: u32,
    /// most outputs
    pub outputs: u32,
    /// most instructions
    pub limit: u32,
}

/// A header word, in the header's order.
#[derive(Clone, Copy, PartialEq, Eq, Debug)]
pub enum HeaderWord {
    Words,
    Text,
    Given,
    Entry,
    Period,
    Outputs,
    Limit,
}

impl HeaderWord {
    /// The word's place in the header, from 0.
    pub fn position(self) -> u32
        ensures place { result ≡ position_of self }
        ensures back { header_word result ≡ Some self }
    {
        self as u32
    }

    /// The word at a place, from 0; none from the eighth on.
    pub fn at(position: u32) -> Option<HeaderWord>
        ensures { result ≡ header_word position }
    {
        match position {
            0 => Some(HeaderWord::Words),
            1 => Some(HeaderWord::Text),
            2 => Some(HeaderWord::Given),
            3 => Some(HeaderWord::Entry),
            4 => Some(HeaderWord::Period),
            5 => Some(HeaderWord::Outputs),
            6 => Some(HeaderWord::Limit),
            _ => None,
        }
    }
}

// Tells the rule that the word breaks. Written out, since a derive says nothing of the text in `output`.
impl fmt::Display for HeaderWord {
    ghost output = { λ w. Some (rule w) };

    fn fmt<W: fmt::Write>(&self, f: &mut fmt::Formatter<W>) -> fmt::Result {
        f.write_str(match self {
            HeaderWord::Words => "the memory size is not 1 to 16384 words",
            HeaderWord::Text => "the text size is 0 or above the memory size",
            HeaderWord::Given => {
                "the memory words given are fewer than the text or more than the memory"
            }
            HeaderWord::Entry => "the entry is not a multiple of 4 inside the text",
            HeaderWord::Period => "the watchdog period is not 1 to 65535 instructions",
            HeaderWord::Outputs => "the most outputs are above 16384",
            HeaderWord::Limit => "the most instructions are 0",
        })
    }
}

impl Header {
    // The header that the bytes begin with.
    pub(crate) fn of(bytes: &[u8]) -> Header
        requires { 28 ≤ length bytes.now }
        ensures { result ≡ header_of bytes.now }
    {
        let in_order: [u32; 7] = from_fn(|k| word_at(bytes, k).unwrap());
        let [words, text, given, entry, period, outputs, limit] = in_order;
        Header {
            words,
            text,
            given,
            entry,
            period,
            outputs,
            limit,
        }
    }

    // Refuses the first word that breaks its rule.
    pub(crate) fn check(&self) -> Result<(), Refusal>
        ensures { Judged self.now result }
    {
        match self.rules().iter().find(|(holds, _)| !*holds) {
            Some(&(_, word)) => Err(Refusal::Header(word.position())),
            None => Ok(()),
        }
    }

    // Whether the words keep their rules, of which each uses the words before it.
    fn rules(&self) -> [(bool, HeaderWord); 7]
        ensures { map asked result ≡ header_questions self.now }
    {
        [
            ((1..=MOST_WORDS).contains(&self.words), HeaderWord::Words),
            ((1..=self.words).contains(&self.text), HeaderWord::Text),
            (
                (self.text..=self.words).contains(&self.given),
                HeaderWord::Given,
            ),
            (is_address(self.entry, self.text), HeaderWord::Entry),
            (
                (1..=LONGEST_PERIOD).contains(&self.period),
                HeaderWord::Period,
            ),
            (self.outputs <= MOST_OUTPUTS, HeaderWord::Outputs),
            (self.limit >= 1, HeaderWord::Limit),
        ]
    }
}

// Whether the address is that of one of the first `count` words.
#[tactic(auto, unfolding(crate::specs::Image::addresses))]
fn is_address(address: u32, count: u32) -> bool
    ensures { result ≡ addresses address count }
{
    address % 4 == 0 && u64::from(address) < 4 * u64::from(count)
}
