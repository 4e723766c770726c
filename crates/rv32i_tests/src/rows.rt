// The rows of the tables. The first parts of each are an instruction's text and its word, and the others only what such
// instructions look at or change, so that each kind of row is a type of its own and stays short.
use rv32i::instruction::Instruction;

/// A register's number and the word in it.
#[derive(Clone, Copy)]
pub struct X(pub u8, pub u32);

/// The registers before, and the one that is written, if the instruction names one.
#[derive(Clone, Copy)]
pub struct Computed(pub &'static str, pub u32, pub &'static [X], pub Option<X>);

/// Where the instruction stands, the registers before, the next pc, and the register that is written.
#[derive(Clone, Copy)]
pub struct Linked(
    pub &'static str,
    pub u32,
    pub u32,
    pub &'static [X],
    pub u32,
    pub X,
);

/// The registers before, and the next pc.
#[derive(Clone, Copy)]
pub struct Branched(pub &'static str, pub u32, pub &'static [X], pub u32);

/// The registers before, the cell, and the register that is written.
#[derive(Clone, Copy)]
pub struct Loaded(pub &'static str, pub u32, pub &'static [X], pub u32, pub X);

/// The registers before, and the cell before and after.
#[derive(Clone, Copy)]
pub struct Stored(
    pub &'static str,
    pub u32,
    pub &'static [X],
    pub u32,
    pub u32,
);

/// The instruction that the word is.
#[derive(Clone, Copy)]
pub struct Decoded(pub &'static str, pub u32, pub Instruction);
