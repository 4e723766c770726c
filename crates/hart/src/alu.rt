// What instructions compute of words.
ghost use Rattle.std.specs.Prelude.{◌≡◌};
ghost use Rattle.hart.specs.Alu.{alu, holds as condition_holds, load_width as width_of_load, store_width as width_of_store, loaded as word_loaded, stored as word_stored, lanes as lanes_stored};

use rv32i::instruction::{Condition, LoadKind, Operation, StoreKind};

pub(crate) fn apply(operation: Operation, a: u32, b: u32) -> u32
    ensures { result ≡ alu operation a b }
{
    match operation {
        Operation::Add => a.wrapping_add(b),
        Operation::Sub => a.wrapping_sub(b),
        Operation::Sll => a.wrapping_shl(b),
        Operation::Slt => u32::from(a.cast_signed() < b.cast_signed()),
        Operation::Sltu => u32::from(a < b),
        Operation::Xor => a ^ b,
        Operation::Srl => a.wrapping_shr(b),
        Operation::Sra => a.cast_signed().wrapping_shr(b).cast_unsigned(),
        Operation::Or => a | b,
        Operation::And => a & b,
    }
}

pub(crate) fn holds(condition: Condition, a: u32, b: u32) -> bool
    ensures { result ≡ condition_holds condition a b }
{
    match condition {
        Condition::Eq => a == b,
        Condition::Ne => a != b,
        Condition::Lt => a.cast_signed() < b.cast_signed(),
        Condition::Ge => a.cast_signed() >= b.cast_signed(),
        Condition::Ltu => a < b,
        Condition::Geu => a >= b,
    }
}

// How many bytes a load reads. A function here, as that of stores, and no method of the kind: only execution asks for it.
pub(crate) fn load_width(kind: LoadKind) -> u32
    ensures { result ≡ width_of_load kind }
{
    match kind {
        LoadKind::Lb | LoadKind::Lbu => 1,
        LoadKind::Lh | LoadKind::Lhu => 2,
        LoadKind::Lw => 4,
    }
}

// What a load from byte `byte` of `word` gives.
pub(crate) fn loaded(kind: LoadKind, word: u32, byte: u32) -> u32
    ensures { result ≡ word_loaded kind word byte }
{
    let low = word >> (8 * (byte % 4));
    match kind {
        LoadKind::Lb => i32::from(((low % 0x100) as u8).cast_signed()).cast_unsigned(),
        LoadKind::Lh => i32::from(((low % 0x1_0000) as u16).cast_signed()).cast_unsigned(),
        LoadKind::Lw => word,
        LoadKind::Lbu => low % 0x100,
        LoadKind::Lhu => low % 0x1_0000,
    }
}

// How many bytes a store writes.
pub(crate) fn store_width(kind: StoreKind) -> u32
    ensures { result ≡ width_of_store kind }
{
    match kind {
        StoreKind::Sb => 1,
        StoreKind::Sh => 2,
        StoreKind::Sw => 4,
    }
}

// The bytes of a word that a store from byte `byte` on names, as bits 0 to 3.
pub(crate) fn lanes(kind: StoreKind, byte: u32) -> u32
    ensures { result ≡ lanes_stored kind byte }
{
    match kind {
        StoreKind::Sb => 1 << (byte % 4),
        StoreKind::Sh => 3 << (byte % 4),
        StoreKind::Sw => 15,
    }
}

// `value` moved up to byte `byte` of a word.
pub(crate) fn stored(value: u32, byte: u32) -> u32
    ensures { result ≡ word_stored value byte }
{
    value << (8 * (byte % 4))
}
