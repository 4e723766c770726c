// The instructions of RV32I. Immediates are words, already sign-extended; registers are numbers below 32.
ghost use Rattle.std.specs.Prelude.{◌≡◌};
ghost use Rattle.rv32i.specs.Refusals.{number as refusal_number};
ghost use Rattle.rv32i.specs.Decode.{condition as condition_of, load_kind, store_kind};

/// When a branch is taken.
#[derive(Clone, Copy, PartialEq, Eq, Debug)]
pub enum Condition {
    Eq,
    Ne,
    Lt,
    Ge,
    Ltu,
    Geu,
}

/// By funct3.
impl TryFrom<u32> for Condition {
    type Error = Refusal;

    ghost try_from_gives = { λ funct3 r. r ≡ condition_of funct3 };

    fn try_from(funct3: u32) -> Result<Condition, Refusal> {
        match funct3 {
            0 => Ok(Condition::Eq),
            1 => Ok(Condition::Ne),
            4 => Ok(Condition::Lt),
            5 => Ok(Condition::Ge),
            6 => Ok(Condition::Ltu),
            7 => Ok(Condition::Geu),
            _ => Err(Refusal::NoInstruction),
        }
    }
}

/// How wide a load is, and whether it extends the sign.
#[derive(Clone, Copy, PartialEq, Eq, Debug)]
pub enum LoadKind {
    Lb,
    Lh,
    Lw,
    Lbu,
    Lhu,
}

/// By funct3.
impl TryFrom<u32> for LoadKind {
    type Error = Refusal;

    ghost try_from_gives = { λ funct3 r. r ≡ load_kind funct3 };

    fn try_from(funct3: u32) -> Result<LoadKind, Refusal> {
        match funct3 {
            0 => Ok(LoadKind::Lb),
            1 => Ok(LoadKind::Lh),
            2 => Ok(LoadKind::Lw),
            4 => Ok(LoadKind::Lbu),
            5 => Ok(LoadKind::Lhu),
            _ => Err(Refusal::NoInstruction),
        }
    }
}

/// How wide a store is.
#[derive(Clone, Copy, PartialEq, Eq, Debug)]
pub enum StoreKind {
    Sb,
    Sh,
    Sw,
}

/// By funct3.
impl TryFrom<u32> for StoreKind {
    type Error = Refusal;

    ghost try_from_gives = { λ funct3 r. r ≡ store_kind funct3 };

    fn try_from(funct3: u32) -> Result<StoreKind, Refusal> {
        match funct3 {
            0 => Ok(StoreKind::Sb),
            1 => Ok(StoreKind::Sh),
            2 => Ok(StoreKind::Sw),
            _ => Err(Refusal::NoInstruction),
        }
    }
}

/// What is done with two words.
#[derive(Clone, Copy, PartialEq, Eq, Debug)]
pub enum Operation {
    Add,
    Sub,
    Sll,
    Slt,
    Sltu,
    Xor,
    Srl,
    Sra,
    Or,
    And,
}

#[derive(Clone, Copy, PartialEq, Eq, Debug)]
pub enum Instruction {
    Lui {
        rd: u8,
        imm: u32,
    },
    Auipc {
        rd: u8,
        imm: u32,
    },
    Jal {
        rd: u8,
        offset: u32,
    },
    Jalr {
        rd: u8,
        rs1: u8,
        offset: u32,
    },
    Branch {
        condition: Condition,
        rs1: u8,
        rs2: u8,
        offset: u32,
    },
    Load {
        kind: LoadKind,
        rd: u8,
        rs1: u8,
        offset: u32,
    },
    Store {
        kind: StoreKind,
        rs1: u8,
        rs2: u8,
        offset: u32,
    },
    Op {
        operation: Operation,
        rd: u8,
        rs1: u8,
        rs2: u8,
    },
    OpImm {
        operation: Operation,
        rd: u8,
        rs1: u8,
        imm: u32,
    },
    Fence,
    Ecall,
    Ebreak,
}

/// What decoding refuses.
#[derive(Clone, Copy, PartialEq, Eq, Debug)]
pub enum Refusal {
    /// the word is no instruction of RV32I
    NoInstruction = 27,
}

impl Refusal {
    /// The number by which users know the refusal.
    pub fn number(self) -> u32
        ensures { result ≡ refusal_number self }
    {
        // each enum casts itself: a type parameter cannot be cast
        self as u32
    }
}
