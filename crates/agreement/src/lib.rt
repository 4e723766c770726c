// The law over runs: an intermittent run agrees with the uninterrupted run of its image. The definitions are in specs/; the
// functions here are the numbers that a user needs, and their contracts name what is proved of every run.
#![tactic(auto)]

ghost use Rattle.std.specs.Prelude.{◌≡◌, ◌+◌, ◌*◌};
ghost use Rattle.agreement.specs.Store.{store_size};
ghost use Rattle.agreement.specs.Agreement.{Agreement};
ghost use Rattle.agreement.specs.Choices.{AnySectionMemory};
ghost use Rattle.agreement.specs.Example.{WorkedExample};
ghost use Rattle.agreement.specs.Loops.{TicksAreSpent, FinishIsSpent, MadeAgree};
ghost use Rattle.agreement.specs.Portions.{Portions};
ghost use Rattle.agreement.specs.Refusals.{RefusalsChangeNothing};

/// The units of a charge that suffices, for an image of this period over a section memory that holds at most `most` pairs.
///
/// Whatever calls come after an accepted load, the run agrees with the uninterrupted run of its image, and enough charges of so many
/// units finish it (`law`). The other clauses are for code: any section memory that keeps its meaning makes the ticks of the
/// definition (`memories`), a loop of ticks is a charge (`ticks`, `finish`), two portions are one (`portions`), a loop of calls is a
/// list of calls (`calls`), and a refused call changes nothing (`refusals`). `example` computes the worked example.
pub fn sufficient_units(period: u32, most: u32) -> u64
    ensures units { result ≡ 38 + period + 4 * most }
    ensures law { Agreement }
    ensures memories { AnySectionMemory }
    ensures ticks { TicksAreSpent }
    ensures finish { FinishIsSpent }
    ensures portions { Portions }
    ensures calls { MadeAgree }
    ensures refusals { RefusalsChangeNothing }
    ensures example { WorkedExample }
{
    38 + u64::from(period) + 4 * u64::from(most)
}

/// The words that a checkpoint store needs: the commit word and two slots, each with room for `most` pairs.
pub fn store_words(most: u32) -> u64
    ensures { result ≡ store_size most }
{
    73 + 4 * u64::from(most)
}
