// What one instruction does, or why the machine stops before it.
ghost use Rattle.std.specs.Prelude.{◌≡◌, Some};
ghost use Rattle.hart.specs.Stops.{number as stop_number, meaning};

use rv32i::instruction::LoadKind;
use std::fmt;

/// The numbers of an image that bound its run: text words, memory words, the most outputs and the most instructions.
#[derive(Clone, Copy, PartialEq, Eq, Debug)]
pub struct Limits {
    pub text: u32,
    pub words: u32,
    pub outputs: u32,
    pub instructions: u32,
}

/// Why a step stops, in the order in which the reasons are asked.
#[derive(Clone, Copy, PartialEq, Eq, Debug)]
pub enum Stop {
    /// the count of instructions has reached the limit
    Limit = 1,
    /// pc is at or above the text's end
    PastText = 2,
    /// the word at pc is no instruction
    NoInstruction = 3,
    Ebreak = 4,
    Ecall = 5,
    /// a jump or taken branch goes to no multiple of 4
    TargetMisaligned = 6,
    /// a data address is no multiple of its width
    DataMisaligned = 7,
    /// a data address is at or above the memory's end
    OutOfRange = 8,
    /// a store goes below the text's end
    StoreToText = 9,
    /// an output after the most outputs
    OutputsFull = 10,
}

impl Stop {
    /// The number by which users know the stop, 1 to 10.
    pub fn number(self) -> u32
        ensures { result ≡ stop_number self }
    {
        // each enum casts itself: a type parameter cannot be cast
        self as u32
    }
}

// What the stop means, in plain words. Written out, since a derive says nothing of the text in `output`.
impl fmt::Display for Stop {
    ghost output = { λ s. Some (meaning s) };

    fn fmt<W: fmt::Write>(&self, f: &mut fmt::Formatter<W>) -> fmt::Result {
        f.write_str(match self {
            Stop::Limit => "the count of instructions has reached the limit",
            Stop::PastText => "pc is at or above the end of the text",
            Stop::NoInstruction => "the word at pc is no instruction",
            Stop::Ebreak => "the next instruction is EBREAK",
            Stop::Ecall => "the next instruction is ECALL",
            Stop::TargetMisaligned => "the target of a jump or taken branch is not a multiple of 4",
            Stop::DataMisaligned => "a data address is not a multiple of the access's width",
            Stop::OutOfRange => "a data address is at or above the end of the memory",
            Stop::StoreToText => "a store goes into the text",
            Stop::OutputsFull => "an output comes when the most outputs are already sent",
        })
    }
}

/// What the next instruction does.
///
/// An enum, and no closure: every machine that carries it out does so over memories of its own kind. A stop is one of the answers, and
/// no error, as `plan` cannot fail. Register 0 stands where no register changes: by the instruction set it drops what is written to it.
#[derive(Clone, Copy, PartialEq, Eq, Debug)]
pub enum Action {
    /// nothing: the machine stops
    Halt(Stop),
    /// goes to `pc` with `value` in register `rd`
    Next {
        pc: u32,
        rd: u8,
        value: u32,
    },
    /// loads from byte `byte` of word `index` into register `rd`
    Load {
        kind: LoadKind,
        rd: u8,
        index: u32,
        byte: u32,
    },
    /// writes the bytes of `word` that `lanes` name into word `index`
    Store {
        index: u32,
        word: u32,
        lanes: u32,
    },
    /// puts a word out
    Output(u32),
}
