// The fields of an instruction word: where the RISC-V manual puts them.
ghost use Rattle.std.specs.Prelude.{◌≡◌, ◌+◌, ◌^◌, ◌<◌, ◌≤◌};
ghost use Rattle.rv32i.specs.Fields.{bits as bits_of, opcode, rd, funct3, rs1, rs2, funct7, sign_extend, imm_i, imm_s, imm_b, imm_u, imm_j};

pub(crate) fn opcode(word: u32) -> u32
    ensures { result ≡ opcode word }
{
    bits(word, 0, 7)
}

pub(crate) fn rd(word: u32) -> u8
    ensures { result ≡ rd word }
{
    register(word, 7)
}

pub(crate) fn funct3(word: u32) -> u32
    ensures { result ≡ funct3 word }
{
    bits(word, 12, 3)
}

pub(crate) fn rs1(word: u32) -> u8
    ensures { result ≡ rs1 word }
{
    register(word, 15)
}

pub(crate) fn rs2(word: u32) -> u8
    ensures { result ≡ rs2 word }
{
    register(word, 20)
}

pub(crate) fn funct7(word: u32) -> u32
    ensures { result ≡ funct7 word }
{
    bits(word, 25, 7)
}

// The `count` bits of `word` from bit `low` up.
fn bits(word: u32, low: u32, count: u32) -> u32
    requires { (low < 32) × (count < 32) }
    ensures { result ≡ bits_of word low count }
{
    (word >> low) % (1 << count)
}

// The number of a register that stands from bit `low` up.
fn register(word: u32, low: u32) -> u8
    requires { low < 32 }
    ensures { result ≡ bits_of word low 5 }
{
    bits(word, low, 5) as u8
}

pub(crate) fn imm_i(word: u32) -> u32
    ensures { result ≡ imm_i word }
{
    (word.cast_signed() >> 20).cast_unsigned()
}

pub(crate) fn imm_s(word: u32) -> u32
    ensures { result ≡ imm_s word }
{
    sign_extend(funct7(word) * 0x20 + bits(word, 7, 5), 11)
}

pub(crate) fn imm_b(word: u32) -> u32
    ensures { result ≡ imm_b word }
{
    sign_extend(
        bits(word, 31, 1) * 0x1000
            + bits(word, 7, 1) * 0x800
            + bits(word, 25, 6) * 0x20
            + bits(word, 8, 4) * 2,
        12,
    )
}

pub(crate) fn imm_u(word: u32) -> u32
    ensures { result ≡ imm_u word }
{
    bits(word, 12, 20) << 12
}

pub(crate) fn imm_j(word: u32) -> u32
    ensures { result ≡ imm_j word }
{
    sign_extend(
        bits(word, 31, 1) * 0x10_0000
            + bits(word, 12, 8) * 0x1000
            + bits(word, 20, 1) * 0x800
            + bits(word, 21, 10) * 2,
        20,
    )
}

// `x`, whose highest bit is bit `top`, with that bit repeated above it.
fn sign_extend(x: u32, top: u32) -> u32
    requires { (top < 31) × (x < 2 ^ (top + 1)) }
    ensures { result ≡ sign_extend top x }
{
    let sign = 1 << top;
    if x < sign {
        x
    } else {
        x.wrapping_sub(sign).wrapping_sub(sign)
    }
}
