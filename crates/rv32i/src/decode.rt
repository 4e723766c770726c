// From words to instructions, by opcode, funct3 and funct7.
ghost use Rattle.std.specs.Prelude.{◌≡◌};
ghost use Rattle.rv32i.specs.Decode.{operation as operation_of, operation_imm, decode_jalr, decode_branch, decode_load, decode_store, decode_op, decode_op_imm, decode_fence, decode_system, decode as decoded};

use crate::fields::{funct3, funct7, imm_b, imm_i, imm_j, imm_s, imm_u, opcode, rd, rs1, rs2};
use crate::instruction::{Condition, Instruction, LoadKind, Operation, Refusal, StoreKind};

/// The instruction that `word` is; a refusal exactly if it is none.
pub fn decode(word: u32) -> Result<Instruction, Refusal>
    ensures { result ≡ decoded word }
{
    match opcode(word) {
        0x37 => Ok(Instruction::Lui {
            rd: rd(word),
            imm: imm_u(word),
        }),
        0x17 => Ok(Instruction::Auipc {
            rd: rd(word),
            imm: imm_u(word),
        }),
        0x6f => Ok(Instruction::Jal {
            rd: rd(word),
            offset: imm_j(word),
        }),
        0x67 => decode_jalr(word),
        0x63 => decode_branch(word),
        0x03 => decode_load(word),
        0x23 => decode_store(word),
        0x33 => decode_op(word),
        0x13 => decode_op_imm(word),
        0x0f => decode_fence(word),
        0x73 => decode_system(word),
        _ => Err(Refusal::NoInstruction),
    }
}

fn decode_jalr(word: u32) -> Result<Instruction, Refusal>
    ensures { result ≡ decode_jalr word }
{
    match funct3(word) {
        0 => Ok(Instruction::Jalr {
            rd: rd(word),
            rs1: rs1(word),
            offset: imm_i(word),
        }),
        _ => Err(Refusal::NoInstruction),
    }
}

fn decode_branch(word: u32) -> Result<Instruction, Refusal>
    ensures { result ≡ decode_branch word }
{
    Ok(Instruction::Branch {
        condition: Condition::try_from(funct3(word))?,
        rs1: rs1(word),
        rs2: rs2(word),
        offset: imm_b(word),
    })
}

fn decode_load(word: u32) -> Result<Instruction, Refusal>
    ensures { result ≡ decode_load word }
{
    Ok(Instruction::Load {
        kind: LoadKind::try_from(funct3(word))?,
        rd: rd(word),
        rs1: rs1(word),
        offset: imm_i(word),
    })
}

fn decode_store(word: u32) -> Result<Instruction, Refusal>
    ensures { result ≡ decode_store word }
{
    Ok(Instruction::Store {
        kind: StoreKind::try_from(funct3(word))?,
        rs1: rs1(word),
        rs2: rs2(word),
        offset: imm_s(word),
    })
}

fn decode_op(word: u32) -> Result<Instruction, Refusal>
    ensures { result ≡ decode_op word }
{
    Ok(Instruction::Op {
        operation: operation(funct7(word), funct3(word))?,
        rd: rd(word),
        rs1: rs1(word),
        rs2: rs2(word),
    })
}

fn decode_op_imm(word: u32) -> Result<Instruction, Refusal>
    ensures { result ≡ decode_op_imm word }
{
    Ok(Instruction::OpImm {
        operation: operation_imm(funct7(word), funct3(word))?,
        rd: rd(word),
        rs1: rs1(word),
        imm: imm_i(word),
    })
}

fn decode_fence(word: u32) -> Result<Instruction, Refusal>
    ensures { result ≡ decode_fence word }
{
    match funct3(word) {
        0 => Ok(Instruction::Fence),
        _ => Err(Refusal::NoInstruction),
    }
}

fn decode_system(word: u32) -> Result<Instruction, Refusal>
    ensures { result ≡ decode_system word }
{
    match word {
        0x0000_0073 => Ok(Instruction::Ecall),
        0x0010_0073 => Ok(Instruction::Ebreak),
        _ => Err(Refusal::NoInstruction),
    }
}

// No TryFrom, unlike the kinds: two tables lead from the same numbers to an operation, by opcode.
fn operation(funct7: u32, funct3: u32) -> Result<Operation, Refusal>
    ensures { result ≡ operation_of funct7 funct3 }
{
    match (funct7, funct3) {
        (0x00, 0) => Ok(Operation::Add),
        (0x20, 0) => Ok(Operation::Sub),
        (0x00, 1) => Ok(Operation::Sll),
        (0x00, 2) => Ok(Operation::Slt),
        (0x00, 3) => Ok(Operation::Sltu),
        (0x00, 4) => Ok(Operation::Xor),
        (0x00, 5) => Ok(Operation::Srl),
        (0x20, 5) => Ok(Operation::Sra),
        (0x00, 6) => Ok(Operation::Or),
        (0x00, 7) => Ok(Operation::And),
        _ => Err(Refusal::NoInstruction),
    }
}

fn operation_imm(funct7: u32, funct3: u32) -> Result<Operation, Refusal>
    ensures { result ≡ operation_imm funct7 funct3 }
{
    match (funct7, funct3) {
        (_, 0) => Ok(Operation::Add),
        (0x00, 1) => Ok(Operation::Sll),
        (_, 2) => Ok(Operation::Slt),
        (_, 3) => Ok(Operation::Sltu),
        (_, 4) => Ok(Operation::Xor),
        (0x00, 5) => Ok(Operation::Srl),
        (0x20, 5) => Ok(Operation::Sra),
        (_, 6) => Ok(Operation::Or),
        (_, 7) => Ok(Operation::And),
        _ => Err(Refusal::NoInstruction),
    }
}
