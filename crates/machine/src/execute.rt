// An image executed from its start to its end.
ghost use Rattle.std.specs.Prelude.{◌≡◌, take, drop};
ghost use Rattle.machine.specs.Calls.{Execute};
ghost use Rattle.machine.specs.Run.{RunsEnd};

use crate::{End, Machine, Refusal};
use memory::Memory;
use memory::bank::WordBank;

/// Loads an image and runs it to its end: the memory then begins with the words that its run leaves, the log with its outputs.
/// A refusal changes nothing. Every run ends.
pub fn execute<M: Memory, L: Memory>(
    bytes: &[u8],
    memory: &mut M,
    log: &mut L,
) -> Result<End, Refusal>
    ensures execute { Execute bytes.now (M.Memory.words memory.old) (L.Memory.words log.old) (M.Memory.words memory.new) (L.Memory.words log.new) result }
    ensures ends { RunsEnd }
    ensures memory_home { M.Memory.fixed memory.new ≡ M.Memory.fixed memory.old }
    ensures log_home { L.Memory.fixed log.new ≡ L.Memory.fixed log.old }
{
    let mut machine = Machine::load(bytes, memory, log)?;
    let stop = machine.run(memory, log)?;
    Ok(End {
        core: machine.core,
        stop,
    })
}

/// The same over a caller's words, of which at most 16,384 each are used: what the rows hold afterwards.
pub fn execute_on_words(bytes: &[u8], memory: &mut [u32], log: &mut [u32]) -> Result<End, Refusal>
    ensures execute { Execute bytes.now (take 16384 memory.old) (take 16384 log.old) (take 16384 memory.new) (take 16384 log.new) result }
    ensures memory_rest { drop 16384 memory.new ≡ drop 16384 memory.old }
    ensures log_rest { drop 16384 log.new ≡ drop 16384 log.old }
{
    let mut words = WordBank::new(memory);
    let mut outputs = WordBank::new(log);
    execute(bytes, &mut words, &mut outputs)
}
