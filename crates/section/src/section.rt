// What every section memory can do.
ghost use Rattle.std.specs.Prelude.{◌≡◌, ℕ, ◌≤◌, length};
ghost use Rattle.section.specs.Calls.{Read, Write, Held};
ghost use Rattle.section.specs.Laws.{SectionLaws};
ghost use Rattle.section.specs.View.{View, Meant, fresh};

use crate::Refusal;
use memory::Memory;

/// The most pairs that any section memory holds.
pub const MOST_PAIRS: usize = 64;

/// A memory that marks what a section reads and writes, and may hold back writes to what the section has read.
///
/// Its words, which `look` and `put` concern, are those that stand after a cut.
pub trait Section: Memory {
    /// The most pairs that it holds.
    const H: usize;

    // A member of the name `H` would be proved equal to the constant, but the check cannot do so yet in an `impl` for a reference.
    /// the same number, for contracts
    ghost most: { ℕ };

    /// R, F and the held pairs
    ghost view: { Self → View };

    /// what a layer adds to the facts
    // The facts are a premise of clauses, and no invariant: a put breaks them until the next `forget`.
    ghost facts: { Self → Type 0 };

    /// The most pairs that it holds, for code that does not know the type.
    fn limit() -> usize
        ensures most { result ≡ most }
        ensures small { result ≤ 64 };

    /// The seen word at an index, which then is in R unless it is in F.
    fn read(&mut self, index: usize) -> Result<u32, Refusal>
        ensures read { Meant most (view self.old) (facts self.old) → Read (Self.Memory.words self.old) (view self.old) index result (Self.Memory.words self.new) (view self.new) }
        ensures facts { Meant most (view self.old) (facts self.old) → Meant most (view self.new) (facts self.new) }
        ensures home { Self.Memory.fixed self.new ≡ Self.Memory.fixed self.old };

    /// Replaces the bytes of the seen word that `lanes` names by those of `word`: in place outside R, held back inside.
    // Three arguments, and no struct of them: callers have them apart, and lanes that name nothing are this call's to refuse.
    fn write(&mut self, index: usize, word: u32, lanes: u32) -> Result<(), Refusal>
        ensures write { Meant most (view self.old) (facts self.old) → Write most (Self.Memory.words self.old) (view self.old) index word lanes result (Self.Memory.words self.new) (view self.new) }
        ensures facts { Meant most (view self.old) (facts self.old) → Meant most (view self.new) (facts self.new) }
        ensures home { Self.Memory.fixed self.new ≡ Self.Memory.fixed self.old };

    /// The index and the word of pair `k`.
    // A pair of words as a tuple, since `Pair` belongs to a layer above.
    fn held(&self, k: usize) -> Result<(u32, u32), Refusal>
        ensures { Meant most (view self.now) (facts self.now) → Held (view self.now).pairs k result };

    /// The number of pairs.
    fn pair_count(&self) -> usize
        ensures { Meant most (view self.now) (facts self.now) → result ≡ length (view self.now).pairs };

    /// Empties R, F and the pairs, which brings all facts about; the words stay.
    fn forget(&mut self)
        ensures view { view self.new ≡ fresh }
        ensures words { Self.Memory.words self.new ≡ Self.Memory.words self.old }
        ensures facts { Meant most (view self.new) (facts self.new) }
        ensures home { Self.Memory.fixed self.new ≡ Self.Memory.fixed self.old };
}

/// The most pairs that any section memory holds. Its contract names the laws that follow from the meaning of the calls.
pub fn most_pairs() -> usize
    ensures value { result ≡ 64 }
    ensures laws { SectionLaws }
{
    MOST_PAIRS
}
