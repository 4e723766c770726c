// States of a small machine and what its next step does, by the rules of the stops and their order.
use crate::bench::Board;
use crate::rows::X;
use crate::table::IDLE;
use code::*;
use hart::action::{Limits, Stop};

/// The most instructions that run.
const LIMIT: u32 = 10;

/// The words of the text.
const TEXT: u32 = 4;

/// The words of the memory.
const WORDS: u32 = 8;

/// The most outputs.
const OUTPUTS: u32 = 2;

/// The first address past the text.
const DATA: u32 = 16;

/// The first address past the memory.
const END: u32 = 32;

/// Where outputs go.
const PORT: u32 = 0x8000_0000;

/// What stands in x7, unless a state says otherwise.
pub const VALUE: u32 = 0x1234_5678;

/// The instructions that are run, and words that are none.
#[rattlefmt::skip]
mod code {
    pub const NOP: u32 = 0x0000_0013; // addi x0, x0, 0
    pub const FENCE_I: u32 = 0x0000_100f; // fence.i
    pub const MUL: u32 = 0x0273_02b3; // mul x5, x6, x7
    pub const EBREAK: u32 = 0x0010_0073; // ebreak
    pub const ECALL: u32 = 0x0000_0073; // ecall
    pub const JAL_ODD: u32 = 0x0020_00ef; // jal x1, .+2
    pub const JAL_OUT: u32 = 0x0100_00ef; // jal x1, .+16
    pub const JAL_BACK: u32 = 0xffdf_f0ef; // jal x1, .-4
    pub const JALR: u32 = 0x0003_00e7; // jalr x1, 0(x6)
    pub const JALR_OWN: u32 = 0x0003_0367; // jalr x6, 0(x6)
    pub const BEQ: u32 = 0x0073_0163; // beq x6, x7, .+2
    pub const BNE: u32 = 0x0073_1163; // bne x6, x7, .+2
    pub const BLT: u32 = 0x0073_4163; // blt x6, x7, .+2
    pub const BGE: u32 = 0x0073_5163; // bge x6, x7, .+2
    pub const BLTU: u32 = 0x0073_6163; // bltu x6, x7, .+2
    pub const BGEU: u32 = 0x0073_7163; // bgeu x6, x7, .+2
    pub const LB: u32 = 0x0003_0283; // lb x5, 0(x6)
    pub const LH: u32 = 0x0003_1283; // lh x5, 0(x6)
    pub const LW: u32 = 0x0003_2283; // lw x5, 0(x6)
    pub const LBU: u32 = 0x0003_4283; // lbu x5, 0(x6)
    pub const LHU: u32 = 0x0003_5283; // lhu x5, 0(x6)
    pub const LB_AWAY: u32 = 0x0003_0003; // lb x0, 0(x6)
    pub const LH_AWAY: u32 = 0x0003_1003; // lh x0, 0(x6)
    pub const LW_AWAY: u32 = 0x0003_2003; // lw x0, 0(x6)
    pub const LBU_AWAY: u32 = 0x0003_4003; // lbu x0, 0(x6)
    pub const LHU_AWAY: u32 = 0x0003_5003; // lhu x0, 0(x6)
    pub const SB: u32 = 0x0073_0023; // sb x7, 0(x6)
    pub const SH: u32 = 0x0073_1023; // sh x7, 0(x6)
    pub const SW: u32 = 0x0073_2023; // sw x7, 0(x6)
}

/// A machine before a step: where its pc is, the word there, two registers and its counts. The
/// memory ends after `words` words.
#[derive(Clone, Copy, Debug)]
pub struct State {
    pub pc: u32,
    pub word: u32,
    pub x6: u32,
    pub x7: u32,
    pub sent: u32,
    pub ran: u32,
    pub words: u32,
}

impl State {
    pub(crate) fn board(&self) -> Board {
        let limits = Limits {
            text: TEXT,
            words: self.words,
            outputs: OUTPUTS,
            instructions: LIMIT,
        };
        let mut board = Board::new(limits, self.pc, self.word);
        board.set(X(6, self.x6));
        board.set(X(7, self.x7));
        board.machine.core.sent = self.sent;
        board.machine.core.ran = self.ran;
        board
    }
}

/// A machine that goes on to the next word.
const READY: State = State {
    pc: 0,
    word: NOP,
    x6: 0,
    x7: VALUE,
    sent: 1,
    ran: 3,
    words: WORDS,
};

/// A state and why it stops.
#[derive(Clone, Copy)]
pub struct Stopped(pub State, pub Stop);

/// A state, its next pc and the register that is written, if one is.
#[derive(Clone, Copy)]
pub struct Passed(pub State, pub u32, pub Option<X>);

/// The same, and why the step after it stops.
#[derive(Clone, Copy)]
pub struct Last(pub State, pub u32, pub Option<X>, pub Stop);

/// A state, and the index and the new word of the cell that is written.
#[derive(Clone, Copy)]
pub struct Wrote(pub State, pub usize, pub u32);

/// Each stop, alone and with later ones that apply too.
#[rattlefmt::skip]
pub static STOPS: [Stopped; 91] = [
    // the limit, alone and before every other
    Stopped(State { ran: 10, ..READY }, Stop::Limit),
    Stopped(State { ran: 10, pc: DATA, ..READY }, Stop::Limit),
    Stopped(State { ran: 10, word: 0, ..READY }, Stop::Limit),
    Stopped(State { ran: 10, word: EBREAK, ..READY }, Stop::Limit),
    Stopped(State { ran: 10, word: ECALL, ..READY }, Stop::Limit),
    Stopped(State { ran: 10, word: JAL_ODD, ..READY }, Stop::Limit),
    Stopped(State { ran: 10, word: LW, x6: 1, ..READY }, Stop::Limit),
    Stopped(State { ran: 10, word: LW, x6: END, ..READY }, Stop::Limit),
    Stopped(State { ran: 10, word: SW, ..READY }, Stop::Limit),
    Stopped(State { ran: 10, word: SW, x6: PORT, sent: 2, ..READY }, Stop::Limit),
    // past the text, alone and before those of the instruction there
    Stopped(State { pc: DATA, ..READY }, Stop::PastText),
    Stopped(State { pc: END, ..READY }, Stop::PastText),
    Stopped(State { pc: 0xffff_fffc, ..READY }, Stop::PastText),
    Stopped(State { pc: DATA, word: 0, ..READY }, Stop::PastText),
    Stopped(State { pc: DATA, word: EBREAK, ..READY }, Stop::PastText),
    Stopped(State { pc: DATA, word: ECALL, ..READY }, Stop::PastText),
    Stopped(State { pc: DATA, word: JAL_ODD, ..READY }, Stop::PastText),
    Stopped(State { pc: DATA, word: LW, x6: 1, ..READY }, Stop::PastText),
    Stopped(State { pc: DATA, word: LW, x6: END, ..READY }, Stop::PastText),
    Stopped(State { pc: DATA, word: SW, ..READY }, Stop::PastText),
    Stopped(State { pc: DATA, word: SW, x6: PORT, sent: 2, ..READY }, Stop::PastText),
    // no instruction, EBREAK and ECALL, at both ends of the text
    Stopped(State { word: 0, ..READY }, Stop::NoInstruction),
    Stopped(State { pc: 12, word: FENCE_I, ..READY }, Stop::NoInstruction),
    Stopped(State { word: MUL, ..READY }, Stop::NoInstruction),
    Stopped(State { word: EBREAK, ..READY }, Stop::Ebreak),
    Stopped(State { pc: 12, word: EBREAK, ..READY }, Stop::Ebreak),
    Stopped(State { word: ECALL, ..READY }, Stop::Ecall),
    Stopped(State { pc: 12, word: ECALL, ..READY }, Stop::Ecall),
    // jumps and taken branches to no multiple of 4: no link is written
    Stopped(State { word: JAL_ODD, ..READY }, Stop::TargetMisaligned),
    Stopped(State { word: JALR, x6: 2, ..READY }, Stop::TargetMisaligned),
    Stopped(State { word: JALR, x6: 3, ..READY }, Stop::TargetMisaligned),
    Stopped(State { word: JALR, x6: 7, ..READY }, Stop::TargetMisaligned),
    Stopped(State { word: JALR, x6: 0xffff_fffe, ..READY }, Stop::TargetMisaligned),
    Stopped(State { word: JALR_OWN, x6: 6, ..READY }, Stop::TargetMisaligned),
    Stopped(State { word: BEQ, x6: 5, x7: 5, ..READY }, Stop::TargetMisaligned),
    Stopped(State { word: BNE, x6: 5, x7: 6, ..READY }, Stop::TargetMisaligned),
    Stopped(State { word: BLT, x6: 0xffff_ffff, x7: 0, ..READY }, Stop::TargetMisaligned),
    Stopped(State { word: BGE, x6: 0, x7: 0xffff_ffff, ..READY }, Stop::TargetMisaligned),
    Stopped(State { word: BLTU, x6: 0, x7: 0xffff_ffff, ..READY }, Stop::TargetMisaligned),
    Stopped(State { word: BGEU, x6: 0xffff_ffff, x7: 0, ..READY }, Stop::TargetMisaligned),
    // addresses that are no multiple of the width
    Stopped(State { word: LH, x6: 17, ..READY }, Stop::DataMisaligned),
    Stopped(State { word: LHU, x6: 19, ..READY }, Stop::DataMisaligned),
    Stopped(State { word: LW, x6: 17, ..READY }, Stop::DataMisaligned),
    Stopped(State { word: LW, x6: 18, ..READY }, Stop::DataMisaligned),
    Stopped(State { word: LW, x6: 19, ..READY }, Stop::DataMisaligned),
    Stopped(State { word: SH, x6: 17, ..READY }, Stop::DataMisaligned),
    Stopped(State { word: SW, x6: 17, ..READY }, Stop::DataMisaligned),
    Stopped(State { word: SW, x6: 18, ..READY }, Stop::DataMisaligned),
    Stopped(State { word: SW, x6: 19, ..READY }, Stop::DataMisaligned),
    // the same, past the memory
    Stopped(State { word: LH, x6: 33, ..READY }, Stop::DataMisaligned),
    Stopped(State { word: LHU, x6: 0xffff_ffff, ..READY }, Stop::DataMisaligned),
    Stopped(State { word: LW, x6: 34, ..READY }, Stop::DataMisaligned),
    Stopped(State { word: LW, x6: 0x8000_0001, ..READY }, Stop::DataMisaligned),
    Stopped(State { word: SH, x6: 33, ..READY }, Stop::DataMisaligned),
    Stopped(State { word: SH, x6: 0x8000_0001, ..READY }, Stop::DataMisaligned),
    Stopped(State { word: SW, x6: 34, ..READY }, Stop::DataMisaligned),
    Stopped(State { word: SW, x6: 0x8000_0001, ..READY }, Stop::DataMisaligned),
    Stopped(State { word: SW, x6: 0x8000_0002, ..READY }, Stop::DataMisaligned),
    // the same, in the text or with no output left
    Stopped(State { word: SH, x6: 1, ..READY }, Stop::DataMisaligned),
    Stopped(State { word: SW, x6: 14, ..READY }, Stop::DataMisaligned),
    Stopped(State { word: SW, x6: 0x8000_0001, sent: 2, ..READY }, Stop::DataMisaligned),
    // addresses past the memory, the address of outputs too but for SW
    Stopped(State { word: LB, x6: END, ..READY }, Stop::OutOfRange),
    Stopped(State { word: LH, x6: END, ..READY }, Stop::OutOfRange),
    Stopped(State { word: LW, x6: END, ..READY }, Stop::OutOfRange),
    Stopped(State { word: LBU, x6: END, ..READY }, Stop::OutOfRange),
    Stopped(State { word: LHU, x6: END, ..READY }, Stop::OutOfRange),
    Stopped(State { word: SB, x6: END, ..READY }, Stop::OutOfRange),
    Stopped(State { word: SH, x6: END, ..READY }, Stop::OutOfRange),
    Stopped(State { word: SW, x6: END, ..READY }, Stop::OutOfRange),
    Stopped(State { word: LB, x6: PORT, ..READY }, Stop::OutOfRange),
    Stopped(State { word: LH, x6: PORT, ..READY }, Stop::OutOfRange),
    Stopped(State { word: LW, x6: PORT, ..READY }, Stop::OutOfRange),
    Stopped(State { word: LBU, x6: PORT, ..READY }, Stop::OutOfRange),
    Stopped(State { word: LHU, x6: PORT, ..READY }, Stop::OutOfRange),
    Stopped(State { word: SB, x6: PORT, ..READY }, Stop::OutOfRange),
    Stopped(State { word: SH, x6: PORT, ..READY }, Stop::OutOfRange),
    Stopped(State { word: SB, x6: PORT, sent: 2, ..READY }, Stop::OutOfRange),
    Stopped(State { word: SH, x6: PORT, sent: 2, ..READY }, Stop::OutOfRange),
    Stopped(State { word: SB, x6: 0x8000_0001, ..READY }, Stop::OutOfRange),
    Stopped(State { word: SW, x6: 0x7fff_fffc, ..READY }, Stop::OutOfRange),
    Stopped(State { word: SW, x6: 0x8000_0004, ..READY }, Stop::OutOfRange),
    Stopped(State { word: SW, x6: 0xffff_fffc, ..READY }, Stop::OutOfRange),
    // the same, below the end of a text that is longer than the memory
    Stopped(State { word: SW, x6: 8, words: 2, ..READY }, Stop::OutOfRange),
    // stores into the text
    Stopped(State { word: SB, x6: 0, ..READY }, Stop::StoreToText),
    Stopped(State { word: SB, x6: 15, ..READY }, Stop::StoreToText),
    Stopped(State { word: SH, x6: 0, ..READY }, Stop::StoreToText),
    Stopped(State { word: SH, x6: 14, ..READY }, Stop::StoreToText),
    Stopped(State { word: SW, x6: 0, ..READY }, Stop::StoreToText),
    Stopped(State { word: SW, x6: 12, ..READY }, Stop::StoreToText),
    Stopped(State { word: SW, x6: 12, sent: 2, ..READY }, Stop::StoreToText),
    // an output after the most
    Stopped(State { word: SW, x6: PORT, sent: 2, ..READY }, Stop::OutputsFull),
];

/// What comes near a stop and goes on.
#[rattlefmt::skip]
pub static PASSES: [Passed; 31] = [
    // no stop is near
    Passed(READY, 4, None),
    // branches that are not taken, to no multiple of 4
    Passed(State { word: BEQ, x6: 5, x7: 6, ..READY }, 4, None),
    Passed(State { word: BNE, x6: 5, x7: 5, ..READY }, 4, None),
    Passed(State { word: BLT, x6: 0, x7: 0xffff_ffff, ..READY }, 4, None),
    Passed(State { word: BGE, x6: 0xffff_ffff, x7: 0, ..READY }, 4, None),
    Passed(State { word: BLTU, x6: 0xffff_ffff, x7: 0, ..READY }, 4, None),
    Passed(State { word: BGEU, x6: 0, x7: 0xffff_ffff, ..READY }, 4, None),
    // JALR clears bit 0
    Passed(State { word: JALR, x6: 5, ..READY }, 4, Some(X(1, 4))),
    Passed(State { word: JALR_OWN, x6: 13, ..READY }, 12, Some(X(6, 4))),
    // loads at the ends of the memory
    Passed(State { word: LW, x6: 0, ..READY }, 4, Some(X(5, LW))),
    Passed(State { word: LB, x6: 31, ..READY }, 4, Some(X(5, 0x5e))),
    Passed(State { word: LH, x6: 30, ..READY }, 4, Some(X(5, 0x5eed))),
    Passed(State { word: LW, x6: 28, ..READY }, 4, Some(X(5, IDLE))),
    Passed(State { word: LBU, x6: 31, ..READY }, 4, Some(X(5, 0x5e))),
    Passed(State { word: LHU, x6: 30, ..READY }, 4, Some(X(5, 0x5eed))),
    // loads into x0, whatever the address
    Passed(State { word: LB_AWAY, x6: END, ..READY }, 4, None),
    Passed(State { word: LB_AWAY, x6: PORT, ..READY }, 4, None),
    Passed(State { word: LB_AWAY, x6: 0xffff_ffff, ..READY }, 4, None),
    Passed(State { word: LH_AWAY, x6: 17, ..READY }, 4, None),
    Passed(State { word: LH_AWAY, x6: END, ..READY }, 4, None),
    Passed(State { word: LH_AWAY, x6: 33, ..READY }, 4, None),
    Passed(State { word: LW_AWAY, x6: 18, ..READY }, 4, None),
    Passed(State { word: LW_AWAY, x6: END, ..READY }, 4, None),
    Passed(State { word: LW_AWAY, x6: PORT, ..READY }, 4, None),
    Passed(State { word: LW_AWAY, x6: 0x8000_0001, ..READY }, 4, None),
    Passed(State { word: LBU_AWAY, x6: END, ..READY }, 4, None),
    Passed(State { word: LBU_AWAY, x6: PORT, ..READY }, 4, None),
    Passed(State { word: LHU_AWAY, x6: 17, ..READY }, 4, None),
    Passed(State { word: LHU_AWAY, x6: END, ..READY }, 4, None),
    Passed(State { word: LHU_AWAY, x6: PORT, ..READY }, 4, None),
    Passed(State { word: LHU_AWAY, x6: 0x8000_0001, ..READY }, 4, None),
];

/// What goes on, though the step after it stops: it leaves the text, or reaches the limit.
#[rattlefmt::skip]
pub static LASTS: [Last; 7] = [
    Last(State { pc: 12, ..READY }, 16, None, Stop::PastText),
    Last(State { word: JAL_OUT, ..READY }, 16, Some(X(1, 4)), Stop::PastText),
    Last(State { word: JAL_BACK, ..READY }, 0xffff_fffc, Some(X(1, 4)), Stop::PastText),
    Last(State { word: JALR, x6: 17, ..READY }, 16, Some(X(1, 4)), Stop::PastText),
    Last(State { word: JALR, x6: END, ..READY }, 32, Some(X(1, 4)), Stop::PastText),
    Last(State { word: JALR_OWN, x6: PORT, ..READY }, PORT, Some(X(6, 4)), Stop::PastText),
    Last(State { ran: 9, pc: 12, word: JALR, ..READY }, 0, Some(X(1, 16)), Stop::Limit),
];

/// Stores at the ends of what may be written.
#[rattlefmt::skip]
pub static WRITES: [Wrote; 6] = [
    Wrote(State { word: SB, x6: 16, ..READY }, 4, 0x5eed_5e78),
    Wrote(State { word: SH, x6: 16, ..READY }, 4, 0x5eed_5678),
    Wrote(State { word: SW, x6: 16, ..READY }, 4, VALUE),
    Wrote(State { word: SB, x6: 31, ..READY }, 7, 0x78ed_5eed),
    Wrote(State { word: SH, x6: 30, ..READY }, 7, 0x5678_5eed),
    Wrote(State { word: SW, x6: 28, ..READY }, 7, VALUE),
];

/// The first output.
pub const OUTPUT: State = State {
    word: SW,
    x6: PORT,
    sent: 0,
    ..READY
};
