// Marks: an index set with one bit for each index.
ghost use Rattle.std.specs.Prelude.{◌≡◌, ◌<◌, Ok};
ghost use Rattle.index_sets.specs.Sets.{marked, none, Took};
ghost use Rattle.std.proofs.Common.{rules};

use crate::{IndexSet, MOST_INDEXES, Refusal};

/// One bit for each index below 16,384: index i has bit i mod 32 of word i div 32.
///
/// A row of words, and no set of the library: marks have fixed memory, and so never refuse an index for want of it.
#[derive(Clone, Copy)]
pub struct Marks {
    words: [u32; 512],
}

impl Marks {
    /// The empty set.
    pub fn new() -> Marks
        ensures { marked result.words ≡ none }
    {
        Marks { words: [0; 512] }
    }
}

impl IndexSet for Marks {
    ghost member = { λ s. marked s.words };

    ghost below = { Prim.search rules };

    fn has(&self, index: usize) -> bool {
        index < MOST_INDEXES && self.words[index / 32] >> (index % 32) & 1 == 1
    }

    /// Never refuses 22.
    fn add(&mut self, index: usize) -> Result<(), Refusal>
        ensures took { Took (marked self.old.words) index result (marked self.new.words) }
        ensures room { index < 16384 → result ≡ Ok tt }
    {
        if index >= MOST_INDEXES {
            return Err(Refusal::OutOfRange);
        }
        self.words[index / 32] |= 1 << (index % 32);
        Ok(())
    }

    fn clear(&mut self) {
        *self = Marks::new();
    }
}
