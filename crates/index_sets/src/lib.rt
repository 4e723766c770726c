// Sets of indexes, and how an index is found among entries.
#![tactic(auto)]

pub mod entries;
pub mod marks;
pub mod table;

ghost use Rattle.std.specs.Prelude.{◌≡◌, ℕ, ◌<◌, true};
ghost use Rattle.index_sets.specs.Refusals.{number as refusal_number};
ghost use Rattle.index_sets.specs.Sets.{IndexTest, none, Took};

/// Indexes in sets lie below this number.
pub const MOST_INDEXES: usize = 16384;

/// What an index set refuses.
#[derive(Clone, Copy, PartialEq, Eq, Debug)]
pub enum Refusal {
    /// the index is not below 16,384
    OutOfRange = 20,
    /// there is no place for one more index
    Full = 22,
}

impl Refusal {
    /// The number by which users know the refusal.
    pub fn number(self) -> u32
        ensures { result ≡ refusal_number self }
    {
        // each enum casts itself: a type parameter cannot be cast
        self as u32
    }
}

/// A collection of different indexes below 16,384.
pub trait IndexSet {
    /// whether an index is in the set
    ghost member: { Self → IndexTest };

    /// Whether an index is in the set; of any other number too.
    fn has(&self, index: usize) -> bool
        ensures { result ≡ member self.now index };

    /// Takes an index in. A set may refuse a further index for want of room, unless it is empty.
    fn add(&mut self, index: usize) -> Result<(), Refusal>
        ensures { Took (member self.old) index result (member self.new) };

    /// Empties the set.
    fn clear(&mut self)
        ensures { member self.new ≡ none };

    ghost below: { (s : Self) (k : ℕ) → member s k ≡ true → k < 16384 };
}
