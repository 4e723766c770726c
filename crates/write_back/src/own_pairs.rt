// The write-back layer's own pairs, in the order in which they entered.
ghost use Rattle.std.specs.Prelude.{◌≡◌, ℕ, ◌<◌, ◌≤◌, List, [], ◌∷◌, ◌++◌, map, length, slice_get};
ghost use Rattle.index_sets.specs.Finding.{Found};
ghost use Rattle.write_back.specs.Own.{Changed};
ghost use Rattle.section.specs.View.{held, Apart};

use crate::pair::Pair;
use arrayvec::ArrayVec;
use index_sets::entries::find;
use memory::lanes::merge;
use std::marker::Model;

// The most pairs that a layer has of its own.
pub(crate) const MOST_OWN: usize = 8;

// At most eight pairs.
#[derive(Drop)]
pub(crate) struct OwnPairs {
    pairs: ArrayVec<Pair, MOST_OWN>,
}

// Contracts see the list of the pairs.
impl Model for OwnPairs {
    ghost Value = { List (ℕ × ℕ) };

    ghost view = { λ own. own.pairs.items };
}

impl OwnPairs {
    // No pair.
    pub(crate) fn new() -> OwnPairs
        ensures { result ≡ [] }
    {
        OwnPairs {
            pairs: ArrayVec::new(),
        }
    }

    // How many pairs there are.
    pub(crate) fn len(&self) -> usize
        ensures len { result ≡ length self.now }
        ensures few { result ≤ 8 }
    {
        self.pairs.len()
    }

    // The place of the pair for an index.
    fn place(&self, index: usize) -> Option<usize>
        ensures { Found (map (λ p. p.0) self.now) index result }
    {
        find(&self.pairs, index)
    }

    // The word of the pair for an index.
    pub(crate) fn word(&self, index: usize) -> Option<u32>
        ensures { Apart self.now → result ≡ held self.now index }
    {
        let k = self.place(index)?;
        let pair = &self.pairs[k];
        Some(pair.word)
    }

    // Replaces the named bytes in the pair for an index, if there is one, and tells whether there is.
    pub(crate) fn change(&mut self, index: usize, word: u32, lanes: u32) -> bool
        ensures { Apart self.old → Changed self.old index word lanes result self.new }
    {
        let Some(k) = self.place(index) else {
            return false;
        };
        let pair = &mut self.pairs[k];
        pair.word = merge(pair.word, word, lanes);
        true
    }

    // The pair with a number.
    pub(crate) fn pair(&self, k: usize) -> Option<Pair>
        ensures { result ≡ slice_get self.now k }
    {
        self.pairs.get(k).copied()
    }

    // One pair more, after the others.
    pub(crate) fn push(&mut self, pair: Pair)
        requires { length self.old < 8 }
        ensures { self.new ≡ self.old ++ pair ∷ [] }
    {
        self.pairs.push(pair);
    }

    // Drops all pairs.
    pub(crate) fn clear(&mut self)
        ensures { self.new ≡ [] }
    {
        self.pairs.clear();
    }
}
