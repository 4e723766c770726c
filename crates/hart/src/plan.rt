// What the next instruction does: the ten stops, in their order, and the instructions.
ghost use Rattle.std.specs.Prelude.{◌≡◌, ◌+◌, ◌^◌, ◌<◌};
ghost use Rattle.hart.specs.Plan.{jump as planned_jump, load as planned_load, store as planned_store, output as planned_output, perform as performed, plan as planned};
ghost use Rattle.hart.specs.State.{after};
ghost use Rattle.hart.specs.declared.action.Action.TheVariants as action;

use crate::action::{Action, Limits, Stop};
use crate::alu::{apply, holds, lanes, load_width, store_width, stored};
use crate::state::Core;
use rv32i::decode::decode;
use rv32i::instruction::{Instruction, LoadKind, StoreKind};

/// The address at which an SW is an output.
pub const OUTPUT_PORT: u32 = 0x8000_0000;

/// What a core does next, if `word` stands at its pc. Below the limit the count has room for one more.
pub fn plan(limits: Limits, core: &Core, word: u32) -> Action
    ensures action { result ≡ planned limits core.now word }
    ensures room { core.now.ran < limits.instructions → core.now.ran + 1 < 2 ^ 32 }
{
    if core.ran >= limits.instructions {
        return Action::Halt(Stop::Limit);
    }
    if core.hart.pc / 4 >= limits.text {
        return Action::Halt(Stop::PastText);
    }
    let Ok(instruction) = decode(word) else {
        return Action::Halt(Stop::NoInstruction);
    };
    Planner { limits, core }.perform(instruction)
}

// Plans what an instruction does on `core`, below the limits of its image.
#[derive(Drop)]
struct Planner<'a> {
    limits: Limits,
    core: &'a Core,
}

impl Planner<'_> {
    fn perform(&self, instruction: Instruction) -> Action
        ensures { result ≡
            performed self.now.limits self.now.core.now.hart self.now.core.now.sent instruction }
    {
        let hart = &self.core.hart;
        match instruction {
            Instruction::Lui { rd, imm } => self.go_on(rd, imm),
            Instruction::Auipc { rd, imm } => self.go_on(rd, hart.pc.wrapping_add(imm)),
            Instruction::Jal { rd, offset } => jump(hart.pc.wrapping_add(offset), rd, hart.after()),
            Instruction::Jalr { rd, rs1, offset } => {
                jump(
                    (hart.read(rs1).wrapping_add(offset) >> 1) << 1,
                    rd,
                    hart.after(),
                )
            }
            Instruction::Branch {
                condition,
                rs1,
                rs2,
                offset,
            } => {
                if holds(condition, hart.read(rs1), hart.read(rs2)) {
                    jump(hart.pc.wrapping_add(offset), 0, 0)
                } else {
                    self.step_over()
                }
            }
            Instruction::Load {
                kind,
                rd,
                rs1,
                offset,
            } => self.load(kind, rd, hart.read(rs1).wrapping_add(offset)),
            Instruction::Store {
                kind,
                rs1,
                rs2,
                offset,
            } => self.store(kind, hart.read(rs2), hart.read(rs1).wrapping_add(offset)),
            Instruction::Op {
                operation,
                rd,
                rs1,
                rs2,
            } => self.go_on(rd, apply(operation, hart.read(rs1), hart.read(rs2))),
            Instruction::OpImm {
                operation,
                rd,
                rs1,
                imm,
            } => self.go_on(rd, apply(operation, hart.read(rs1), imm)),
            Instruction::Fence => self.step_over(),
            Instruction::Ecall => Action::Halt(Stop::Ecall),
            Instruction::Ebreak => Action::Halt(Stop::Ebreak),
        }
    }

    // To the next instruction, with `value` in `rd`.
    fn go_on(&self, rd: u8, value: u32) -> Action
        ensures { result ≡ action.Next (after self.now.core.now.hart.pc) rd value }
    {
        Action::Next {
            pc: self.core.hart.after(),
            rd,
            value,
        }
    }

    // To the next instruction, and no register changes.
    fn step_over(&self) -> Action
        ensures { result ≡ action.Next (after self.now.core.now.hart.pc) 0 0 }
    {
        self.go_on(0, 0)
    }

    fn load(&self, kind: LoadKind, rd: u8, address: u32) -> Action
        ensures { result ≡ planned_load self.now.limits self.now.core.now.hart.pc kind rd address }
    {
        let index = address / 4;
        let byte = address % 4;
        if rd == 0 {
            self.step_over()
        } else if address % load_width(kind) != 0 {
            Action::Halt(Stop::DataMisaligned)
        } else if index >= self.limits.words {
            Action::Halt(Stop::OutOfRange)
        } else {
            Action::Load {
                kind,
                rd,
                index,
                byte,
            }
        }
    }

    fn store(&self, kind: StoreKind, value: u32, address: u32) -> Action
        ensures { result ≡ planned_store self.now.limits self.now.core.now.sent kind value address }
    {
        let width = store_width(kind);
        let index = address / 4;
        let byte = address % 4;
        if address % width != 0 {
            Action::Halt(Stop::DataMisaligned)
        } else if width == 4 && address == OUTPUT_PORT {
            self.output(value)
        } else if index >= self.limits.words {
            Action::Halt(Stop::OutOfRange)
        } else if index < self.limits.text {
            Action::Halt(Stop::StoreToText)
        } else {
            Action::Store {
                index,
                word: stored(value, byte),
                lanes: lanes(kind, byte),
            }
        }
    }

    fn output(&self, value: u32) -> Action
        ensures { result ≡ planned_output self.now.limits self.now.core.now.sent value }
    {
        if self.core.sent >= self.limits.outputs {
            Action::Halt(Stop::OutputsFull)
        } else {
            Action::Output(value)
        }
    }
}

// To `target`, with `value` in `rd`.
fn jump(target: u32, rd: u8, value: u32) -> Action
    ensures { result ≡ planned_jump target rd value }
{
    if target % 4 == 0 {
        Action::Next {
            pc: target,
            rd,
            value,
        }
    } else {
        Action::Halt(Stop::TargetMisaligned)
    }
}
