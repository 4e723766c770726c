// The memory over a caller's row of cells.
ghost use Rattle.std.specs.Prelude.{◌≡◌, ◌∷◌};
ghost use Rattle.memory.specs.Words.{Put};

use crate::cell::Cell;
use crate::{Memory, Refusal};

/// The words of a row of cells; it never touches what stands beside them.
#[derive(Drop)]
pub struct Bank<'a, C: Cell> {
    cells: &'a mut [C],
}

/// The memory over a caller's words.
pub type WordBank<'a> = Bank<'a, u32>;

/// The memory over a caller's bytes.
pub type ByteBank<'a> = Bank<'a, u8>;

impl<'a, C: Cell> Bank<'a, C> {
    pub fn new(cells: &'a mut [C]) -> Bank<'a, C>
        ensures { result.cells ≡ cells.entry }
    {
        Bank { cells }
    }
}

impl<'a, C: Cell> Memory for Bank<'a, C> {
    ghost words = { λ s. C.words s.cells.now };

    ghost fixed = { λ s. s.cells.ghost_name ∷ C.beside s.cells.now };

    fn size(&self) -> usize {
        C::count(self.cells)
    }

    fn look(&self, index: usize) -> Result<u32, Refusal> {
        C::word(self.cells, index).ok_or(Refusal::OutOfRange)
    }

    fn put(&mut self, index: usize, word: u32) -> Result<(), Refusal> {
        C::set(self.cells, index, word)
    }
}

/// Puts one word through a bank over `cells`: what a caller's row holds once its bank is gone.
pub fn put_in<C: Cell>(cells: &mut [C], index: usize, word: u32) -> Result<(), Refusal>
    ensures words { Put (C.words cells.old) index word (C.words cells.new) result }
    ensures rest { C.beside cells.new ≡ C.beside cells.old }
{
    let mut bank = Bank::new(cells);
    bank.put(index, word)
}
