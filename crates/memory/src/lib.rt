// Memories: lists of words that can be looked at and put, whatever stands behind them.
#![tactic(auto)]

pub mod access;
pub mod bank;
pub mod bytes;
pub mod cell;
pub mod lanes;
pub mod lent;

ghost use Rattle.std.specs.Prelude.{◌≡◌, ℕ, ◌≤◌, List, length};
ghost use Rattle.memory.specs.Refusals.{number as refusal_number};
ghost use Rattle.memory.specs.Words.{Looked, Put};

/// The most words that a memory has.
pub const MOST_WORDS: usize = 16384;

/// What a memory refuses.
#[derive(Clone, Copy, PartialEq, Eq, Debug)]
pub enum Refusal {
    /// the index is not below the size
    OutOfRange = 20,
}

impl Refusal {
    /// The number by which users know the refusal.
    pub fn number(self) -> u32
        ensures { result ≡ refusal_number self }
    {
        // each enum casts itself: a type parameter cannot be cast
        self as u32
    }
}

/// A list of at most 16,384 words whose length never changes.
pub trait Memory {
    /// the words
    ghost words: { Self → List ℕ };

    /// what no call changes: which buffers the memory borrows, and what stands in them beside its words
    // A clause of each call says so, since an invariant speaks of one state.
    ghost fixed: { Self → List ℕ };

    /// The number of words.
    fn size(&self) -> usize
        ensures size { result ≡ length (words self.now) }
        ensures few { result ≤ 16384 };

    /// The word at an index.
    fn look(&self, index: usize) -> Result<u32, Refusal>
        ensures { Looked (words self.now) index result };

    /// Makes the word at an index equal `word`, and changes no other. A refusal changes nothing at all.
    fn put(&mut self, index: usize, word: u32) -> Result<(), Refusal>
        ensures put { Put (words self.old) index word (words self.new) result }
        ensures same { length (words self.old) ≤ index → self.new ≡ self.old }
        ensures home { fixed self.new ≡ fixed self.old };
}
