// A held pair.
ghost use Rattle.std.specs.Prelude.{ℕ};

use index_sets::entries::Entry;
use std::marker::Model;

/// An index, and the word that is held for it.
#[derive(Clone, Copy, Default)]
pub struct Pair {
    pub index: u32,
    pub word: u32,
}

/// Contracts see the two numbers, as they see the pairs of any section memory.
impl Model for Pair {
    ghost Value = { ℕ × ℕ };

    ghost view = { λ p. (p.index, p.word) };

    ghost inverse = { λ v. record { index = v.0; word = v.1 } };
}

/// A pair tells its index.
impl Entry for Pair {
    ghost key = { λ p. p.0 };

    fn index(&self) -> usize {
        self.index as usize
    }
}
