// The write-back layer: room for held pairs over any section memory.
ghost use Rattle.std.specs.Prelude.{◌≡◌, ◌<◌, ◌≤◌, [], length, min, slice_index};
ghost use Rattle.memory.specs.Lanes.{merged};
ghost use Rattle.memory.specs.Words.{Put};
ghost use Rattle.section.specs.Calls.{Write};
ghost use Rattle.write_back.specs.Layer.{most_over, room_over, over, Added, AllFacts, Taken, InOrder, Dropped};
ghost use Rattle.section.specs.Refusals.{Refused};

use crate::own_pairs::{MOST_OWN, OwnPairs};
use crate::pair::Pair;
use memory::Memory;
use memory::lanes::merge;
use section::Refusal;
use section::section::{MOST_PAIRS, Section};

/// A section memory that holds back up to eight writes more than the lower one, and no more than 64 with it.
#[derive(Drop)]
pub struct WriteBack<S: Section> {
    lower: S,
    own: OwnPairs,
}

impl<S: Section> WriteBack<S> {
    /// A layer with no pairs of its own; it forgets nothing below.
    pub fn new(lower: S) -> WriteBack<S>
        ensures lower { result.lower ≡ lower }
        ensures own { result.own ≡ [] }
    {
        WriteBack {
            lower,
            own: OwnPairs::new(),
        }
    }

    /// The lower section memory, once the layer is given up.
    pub fn into_lower(self) -> S
        ensures { result ≡ self.lower }
    {
        let WriteBack { lower, own: _ } = self;
        lower
    }

    // How many pairs the layer can hold of its own.
    fn room() -> usize
        ensures room { result ≡ room_over S.Section.most }
        ensures small { result ≤ 8 }
    {
        let lower = S::limit();
        most_over(lower) - lower
    }

    // Takes a write that the lower section memory refused into a pair of the layer's own, while there is room.
    fn keep(&mut self, index: usize, word: u32, lanes: u32) -> Result<(), Refusal>
        requires { index < 16384 }
        ensures lower { self.new.lower ≡ self.old.lower }
        ensures taken { index < length (S.Memory.words self.old.lower) → Taken (room_over S.Section.most) self.old.own (index, merged (slice_index (S.Memory.words self.old.lower) index) word lanes) result self.new.own }
    {
        if self.own.len() >= Self::room() {
            return Err(Refusal::Due);
        }
        let old = self.lower.look(index)?;
        self.own.push(Pair {
            index: index as u32,
            word: merge(old, word, lanes),
        });
        Ok(())
    }
}

// The most pairs of a layer over a section memory that holds at most `lower`.
fn most_over(lower: usize) -> usize
    requires { lower ≤ 64 }
    ensures { result ≡ most_over lower }
{
    capped(lower + MOST_OWN)
}

// The sum, but no more than any section memory holds.
const fn capped(sum: usize) -> usize
    ensures { result ≡ min 64 sum }
{
    if sum < MOST_PAIRS { sum } else { MOST_PAIRS }
}

// Calls are handed on one by one: Rust delegates none, and a macro may write no impl.
impl<S: Section> Memory for WriteBack<S> {
    ghost words = { λ s. S.Memory.words s.lower };

    ghost fixed = { λ s. S.Memory.fixed s.lower };

    fn size(&self) -> usize {
        self.lower.size()
    }

    fn look(&self, index: usize) -> Result<u32, memory::Refusal> {
        self.lower.look(index)
    }

    /// An accepted put drops the layer's own pairs.
    fn put(&mut self, index: usize, word: u32) -> Result<(), memory::Refusal>
        ensures put { Put (S.Memory.words self.old.lower) index word (S.Memory.words self.new.lower) result }
        ensures same { length (S.Memory.words self.old.lower) ≤ index → self.new ≡ self.old }
        ensures home { S.Memory.fixed self.new.lower ≡ S.Memory.fixed self.old.lower }
        ensures own { Dropped result self.old.own self.new.own }
    {
        self.lower.put(index, word)?;
        self.own.clear();
        Ok(())
    }
}

impl<S: Section> Section for WriteBack<S> {
    const H: usize = capped(S::H.wrapping_add(MOST_OWN));

    ghost most = { most_over S.Section.most };

    ghost view = { over S.Section.view };

    ghost facts = { Added S.Section.most S.Section.view S.Section.facts };

    fn limit() -> usize {
        most_over(S::limit())
    }

    fn read(&mut self, index: usize) -> Result<u32, Refusal> {
        if index >= self.lower.size() {
            return Err(Refusal::OutOfRange);
        }
        match self.own.word(index) {
            Some(word) => Ok(word),
            None => self.lower.read(index),
        }
    }

    fn write(&mut self, index: usize, word: u32, lanes: u32) -> Result<(), Refusal>
        ensures write { AllFacts S.Section.most S.Section.view S.Section.facts self.old → Write (most_over S.Section.most) (S.Memory.words self.old.lower) (over S.Section.view self.old) index word lanes result (S.Memory.words self.new.lower) (over S.Section.view self.new) }
        ensures facts { AllFacts S.Section.most S.Section.view S.Section.facts self.old → AllFacts S.Section.most S.Section.view S.Section.facts self.new }
        ensures home { S.Memory.fixed self.new.lower ≡ S.Memory.fixed self.old.lower }
        ensures order { AllFacts S.Section.most S.Section.view S.Section.facts self.old → InOrder self.old.own index self.new.own }
        ensures full { AllFacts S.Section.most S.Section.view S.Section.facts self.old → Refused 21 result → room_over S.Section.most ≤ length self.old.own }
    {
        if index >= self.lower.size() {
            return Err(Refusal::OutOfRange);
        }
        if !(1..=15).contains(&lanes) {
            return Err(Refusal::Lanes);
        }
        if self.own.change(index, word, lanes) {
            return Ok(());
        }
        match self.lower.write(index, word, lanes) {
            Err(Refusal::Due) => self.keep(index, word, lanes),
            answer => answer,
        }
    }

    fn held(&self, k: usize) -> Result<(u32, u32), Refusal> {
        let lower = self.lower.pair_count();
        if k < lower {
            return self.lower.held(k);
        }
        let Some(pair) = self.own.pair(k - lower) else {
            return Err(Refusal::NoPair);
        };
        Ok((pair.index, pair.word))
    }

    fn pair_count(&self) -> usize {
        self.lower.pair_count().saturating_add(self.own.len())
    }

    fn forget(&mut self) {
        self.lower.forget();
        self.own.clear();
    }
}
