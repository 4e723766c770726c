// The detector: two index sets over a memory.
ghost use Rattle.std.specs.Prelude.{◌≡◌, ◌≤◌, length};
ghost use Rattle.index_sets.specs.Sets.{none};
ghost use Rattle.memory.specs.Words.{Put};
ghost use Rattle.section.specs.Calls.{Read, Write};
ghost use Rattle.section.specs.Detecting.{sets, DetectedRead, DetectedWrite};
ghost use Rattle.section.specs.View.{Meant};

use crate::Refusal;
use crate::section::Section;
use index_sets::IndexSet;
use memory::Memory;
use memory::lanes::merge;

// A detector holds no pair.
const NO_PAIRS: usize = 0;

/// A section memory that holds nothing back: a write to what the section has read asks for a checkpoint.
#[derive(Drop)]
pub struct Detector<M: Memory, R: IndexSet, F: IndexSet> {
    memory: M,
    reads: R,
    writes: F,
}

impl<M: Memory, R: IndexSet, F: IndexSet> Detector<M, R, F> {
    /// A detector over a memory and two sets, which it clears.
    pub fn new(memory: M, mut reads: R, mut writes: F) -> Detector<M, R, F>
        ensures memory { result.memory ≡ memory }
        ensures reads { R.IndexSet.member result.reads ≡ none }
        ensures writes { F.IndexSet.member result.writes ≡ none }
    {
        reads.clear();
        writes.clear();
        Detector {
            memory,
            reads,
            writes,
        }
    }

    /// The memory, once the detector is given up.
    pub fn into_memory(self) -> M
    where
        R: Drop,
        F: Drop,
        ensures { result ≡ self.memory }
    {
        let Detector {
            memory,
            reads: _,
            writes: _,
        } = self;
        memory
    }
}

// Calls are handed on one by one: Rust delegates none, and a macro may write no impl.
impl<M: Memory, R: IndexSet, F: IndexSet> Memory for Detector<M, R, F> {
    ghost words = { λ s. M.Memory.words s.memory };

    ghost fixed = { λ s. M.Memory.fixed s.memory };

    fn size(&self) -> usize {
        self.memory.size()
    }

    fn look(&self, index: usize) -> Result<u32, memory::Refusal> {
        self.memory.look(index)
    }

    /// Leaves both sets as they are.
    fn put(&mut self, index: usize, word: u32) -> Result<(), memory::Refusal>
        ensures put { Put (M.Memory.words self.old.memory) index word (M.Memory.words self.new.memory) result }
        ensures same { length (M.Memory.words self.old.memory) ≤ index → self.new ≡ self.old }
        ensures home { M.Memory.fixed self.new.memory ≡ M.Memory.fixed self.old.memory }
        ensures reads { self.new.reads ≡ self.old.reads }
        ensures writes { self.new.writes ≡ self.old.writes }
    {
        self.memory.put(index, word)
    }
}

impl<M: Memory, R: IndexSet, F: IndexSet> Section for Detector<M, R, F> {
    const H: usize = NO_PAIRS;

    ghost most = { 0 };

    ghost view = { sets R.IndexSet.member F.IndexSet.member };

    ghost facts = { λ _. Unit {0} };

    fn limit() -> usize {
        NO_PAIRS
    }

    fn read(&mut self, index: usize) -> Result<u32, Refusal>
        ensures read { Read (M.Memory.words self.old.memory) (sets R.IndexSet.member F.IndexSet.member self.old) index result (M.Memory.words self.new.memory) (sets R.IndexSet.member F.IndexSet.member self.new) }
        ensures facts { Meant 0 (sets R.IndexSet.member F.IndexSet.member self.old) (Unit {0}) → Meant 0 (sets R.IndexSet.member F.IndexSet.member self.new) (Unit {0}) }
        ensures home { M.Memory.fixed self.new.memory ≡ M.Memory.fixed self.old.memory }
        ensures detected { DetectedRead (M.Memory.words self.old.memory) (sets R.IndexSet.member F.IndexSet.member self.old) index result (sets R.IndexSet.member F.IndexSet.member self.new) }
    {
        if index >= self.memory.size() {
            return Err(Refusal::OutOfRange);
        }
        let word = self.memory.look(index)?;
        if self.reads.has(index) || self.writes.has(index) {
            return Ok(word);
        }
        self.reads.add(index).map_err(|_| Refusal::Due)?;
        Ok(word)
    }

    fn write(&mut self, index: usize, word: u32, lanes: u32) -> Result<(), Refusal>
        ensures write { Write 0 (M.Memory.words self.old.memory) (sets R.IndexSet.member F.IndexSet.member self.old) index word lanes result (M.Memory.words self.new.memory) (sets R.IndexSet.member F.IndexSet.member self.new) }
        ensures facts { Meant 0 (sets R.IndexSet.member F.IndexSet.member self.old) (Unit {0}) → Meant 0 (sets R.IndexSet.member F.IndexSet.member self.new) (Unit {0}) }
        ensures home { M.Memory.fixed self.new.memory ≡ M.Memory.fixed self.old.memory }
        ensures detected { DetectedWrite (M.Memory.words self.old.memory) (sets R.IndexSet.member F.IndexSet.member self.old) index lanes result (sets R.IndexSet.member F.IndexSet.member self.new) }
    {
        let old = self.memory.look(index)?;
        if !(1..=15).contains(&lanes) {
            return Err(Refusal::Lanes);
        }
        if self.reads.has(index) {
            return Err(Refusal::Due);
        }
        self.memory.put(index, merge(old, word, lanes))?;
        if lanes == 15 {
            // where the set has no room, a later read marks the index, which is safe
            let _ = self.writes.add(index);
        }
        Ok(())
    }

    fn held(&self, _k: usize) -> Result<(u32, u32), Refusal> {
        Err(Refusal::NoPair)
    }

    fn pair_count(&self) -> usize {
        NO_PAIRS
    }

    fn forget(&mut self) {
        self.reads.clear();
        self.writes.clear();
    }
}
