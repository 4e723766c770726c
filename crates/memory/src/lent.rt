// A memory that is lent.
ghost use Rattle.std.specs.Prelude.{◌≡◌, ◌∷◌};

use crate::{Memory, Refusal};

/// Its words are those of the memory behind the reference.
// Calls are handed on one by one: Rust delegates none, and a macro may write no impl.
impl<'a, M: Memory> Memory for &'a mut M {
    ghost words = { λ s. M.Memory.words s.now };

    ghost fixed = { λ s. s.ghost_name ∷ M.Memory.fixed s.now };

    fn size(&self) -> usize {
        (**self).size()
    }

    fn look(&self, index: usize) -> Result<u32, Refusal> {
        (**self).look(index)
    }

    fn put(&mut self, index: usize, word: u32) -> Result<(), Refusal> {
        (**self).put(index, word)
    }
}
