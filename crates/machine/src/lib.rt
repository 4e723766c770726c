// The uninterrupted machine: an image executed without cuts, over any memory for its words and any for its outputs.
#![tactic(auto)]

pub mod execute;
pub mod load;
pub mod step;

ghost use Rattle.std.specs.Prelude.{◌≡◌, Some};
ghost use Rattle.machine.specs.Refusals.{number as refusal_number, reason};
ghost use Rattle.machine.specs.declared.Refusal.TheVariants.{Image as ImageRefused};

use hart::action::{Limits, Stop};
use hart::state::Core;
use std::error::Error;
use std::fmt;

/// What the machine refuses.
#[derive(Clone, Copy, PartialEq, Eq, Debug)]
pub enum Refusal {
    /// the bytes are no image
    Image(image::Refusal),
    /// the memory has too few words for the image, or the log for its outputs
    TooSmall,
}

impl Refusal {
    /// The number by which users know the refusal.
    pub fn number(self) -> u32
        ensures { result ≡ refusal_number self }
    {
        // a match, since a variant that holds a value cannot be cast
        match self {
            Refusal::Image(refusal) => refusal.number(),
            Refusal::TooSmall => 7,
        }
    }
}

// By hand, since contracts name the error that a `?` makes, and no derive says which.
impl From<image::Refusal> for Refusal {
    ghost from_gives = { λ e r. r ≡ ImageRefused e };

    fn from(error: image::Refusal) -> Refusal {
        Refusal::Image(error)
    }
}

// Written out, since a derive says nothing of the text in `output`.
impl fmt::Display for Refusal {
    ghost output = { λ e. Some (reason e) };

    fn fmt<W: fmt::Write>(&self, f: &mut fmt::Formatter<W>) -> fmt::Result {
        match self {
            Refusal::Image(refusal) => write!(f, "{refusal}"),
            Refusal::TooSmall => f.write_str("a memory has too few words for the image"),
        }
    }
}

impl Error for Refusal {}

/// A machine between two steps, beside its memory and its log.
#[derive(Clone, Copy, PartialEq, Eq, Debug)]
pub struct Machine {
    pub limits: Limits,
    pub core: Core,
}

/// How a run ended: its core and why it stopped.
#[derive(Clone, Copy, PartialEq, Eq, Debug)]
pub struct End {
    pub core: Core,
    pub stop: Stop,
}
