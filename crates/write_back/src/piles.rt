// A word stored through whole piles: what a caller's row holds once the pile is gone.
//
// Each layer is put on by a function of its own, over a `&mut` to what is below it: so the checker knows what the row holds.
ghost use Rattle.std.specs.Prelude.{◌≡◌};
ghost use Rattle.section.specs.Calls.{FirstWrite};

use crate::layer::WriteBack;
use index_sets::table::Table;
use memory::Memory;
use memory::bank::Bank;
use memory::cell::Cell;
use section::Refusal;
use section::detector::Detector;
use section::section::Section;

/// Forgets, then writes: the first write of a section.
pub fn store<S: Section>(
    section: &mut S,
    index: usize,
    word: u32,
    lanes: u32,
) -> Result<(), Refusal>
    ensures words { FirstWrite (S.Memory.words section.old) index word lanes result (S.Memory.words section.new) }
    ensures home { S.Memory.fixed section.new ≡ S.Memory.fixed section.old }
{
    section.forget();
    section.write(index, word, lanes)
}

/// The same through a write-back layer.
pub fn store_over_section<S: Section>(
    lower: &mut S,
    index: usize,
    word: u32,
    lanes: u32,
) -> Result<(), Refusal>
    ensures words { FirstWrite (S.Memory.words lower.old) index word lanes result (S.Memory.words lower.new) }
    ensures home { S.Memory.fixed lower.new ≡ S.Memory.fixed lower.old }
{
    let mut layer = WriteBack::new(lower);
    store(&mut layer, index, word, lanes)
}

/// The same through a write-back layer over a detector with two tables.
pub fn store_over_memory<M: Memory>(
    memory: &mut M,
    index: usize,
    word: u32,
    lanes: u32,
) -> Result<(), Refusal>
    ensures words { FirstWrite (M.Memory.words memory.old) index word lanes result (M.Memory.words memory.new) }
    ensures home { M.Memory.fixed memory.new ≡ M.Memory.fixed memory.old }
{
    let mut detector = Detector::new(memory, Table::new(), Table::new());
    store_over_section(&mut detector, index, word, lanes)
}

/// The same over a caller's row of cells.
pub fn store_in<C: Cell>(
    cells: &mut [C],
    index: usize,
    word: u32,
    lanes: u32,
) -> Result<(), Refusal>
    ensures words { FirstWrite (C.words cells.old) index word lanes result (C.words cells.new) }
    ensures rest { C.beside cells.new ≡ C.beside cells.old }
{
    let mut bank = Bank::new(cells);
    store_over_memory(&mut bank, index, word, lanes)
}
