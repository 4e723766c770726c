// The cells of a row that holds words: whole words, or bytes.
ghost use Rattle.std.specs.Prelude.{◌≡◌, ℕ, ◌≤◌, List, length, take, drop, slice_get};
ghost use Rattle.memory.specs.Bytes.{packed, packed_few, beside as bytes_beside};
ghost use Rattle.memory.specs.Words.{front_few, Put};

use crate::bytes::word_at;
use crate::{MOST_WORDS, Refusal};

/// A cell of a row that holds words, of which at most 16,384 are used.
pub trait Cell: Copy {
    /// the words in use of a row of cells
    ghost words: { List Self → List ℕ };

    /// what stands in the row beside them
    ghost beside: { List Self → List ℕ };

    /// The number of words.
    fn count(cells: &[Self]) -> usize
        ensures count { result ≡ length (words cells.now) }
        ensures few { result ≤ 16384 };

    /// The word at an index.
    fn word(cells: &[Self], index: usize) -> Option<u32>
        ensures { result ≡ slice_get (words cells.now) index };

    /// Makes the word at an index equal `word`, and changes no other cell. A refusal changes nothing at all.
    fn set(cells: &mut [Self], index: usize, word: u32) -> Result<(), Refusal>
        ensures put { Put (words cells.old) index word (words cells.new) result }
        ensures same { length (words cells.old) ≤ index → cells.new ≡ cells.old }
        ensures beside { beside cells.new ≡ beside cells.old };

    ghost few: { (cells : List Self) → length (words cells) ≤ 16384 };
}

/// A cell is a word.
impl Cell for u32 {
    ghost words = { λ cells. take 16384 cells };

    ghost beside = { λ cells. drop 16384 cells };

    ghost few = { front_few };

    fn count(cells: &[u32]) -> usize {
        cells.len().min(MOST_WORDS)
    }

    fn word(cells: &[u32], index: usize) -> Option<u32> {
        cells[..Self::count(cells)].get(index).copied()
    }

    fn set(cells: &mut [u32], index: usize, word: u32) -> Result<(), Refusal> {
        if index >= Self::count(cells) {
            return Err(Refusal::OutOfRange);
        }
        cells[index] = word;
        Ok(())
    }
}

/// Four cells are a word, the least significant byte first; the bytes after the last word in use are never touched.
impl Cell for u8 {
    ghost words = { packed };

    ghost beside = { bytes_beside };

    ghost few = { packed_few };

    fn count(cells: &[u8]) -> usize {
        (cells.len() / 4).min(MOST_WORDS)
    }

    fn word(cells: &[u8], index: usize) -> Option<u32> {
        word_at(&cells[..4 * Self::count(cells)], index)
    }

    fn set(cells: &mut [u8], index: usize, word: u32) -> Result<(), Refusal> {
        if index >= Self::count(cells) {
            return Err(Refusal::OutOfRange);
        }
        let at = 4 * index;
        cells[at..at + 4].copy_from_slice(&word.to_le_bytes());
        Ok(())
    }
}
