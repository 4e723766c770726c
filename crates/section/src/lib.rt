// Section memories: memories that mark what a section reads, so that it can be executed again after a cut.
#![tactic(auto)]

pub mod detector;
pub mod lent;
pub mod section;

ghost use Rattle.std.specs.Prelude.{◌≡◌};
ghost use Rattle.section.specs.Refusals.{number as refusal_number};
ghost use Rattle.section.specs.declared.Refusal.TheVariants.{OutOfRange};

/// What a section memory refuses.
#[derive(Clone, Copy, PartialEq, Eq, Debug)]
pub enum Refusal {
    /// the index is not below the size
    OutOfRange = 20,
    /// a checkpoint is due before this access
    Due = 21,
    /// lanes is not 1 to 15
    Lanes = 23,
    /// there is no pair with this number
    NoPair = 24,
}

impl Refusal {
    /// The number by which users know the refusal.
    pub fn number(self) -> u32
        ensures { result ≡ refusal_number self }
    {
        // each enum casts itself: a type parameter cannot be cast
        self as u32
    }
}

/// A memory refuses one thing only.
// By hand, here and in crates above: contracts name the error that a `?` makes, and no derive says which.
impl From<memory::Refusal> for Refusal {
    ghost from_gives = { λ _ r. r ≡ OutOfRange };

    fn from(refusal: memory::Refusal) -> Refusal {
        match refusal {
            memory::Refusal::OutOfRange => Refusal::OutOfRange,
        }
    }
}
