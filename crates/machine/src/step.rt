// One step, and the run to its end.
ghost use Rattle.std.specs.Prelude.{◌≡◌, ◌≤◌, [], length, MatchResult};
ghost use Rattle.machine.specs.Refusals.{as_no};
ghost use Rattle.machine.specs.Calls.{Fits, Advanced, Step, Run};

use crate::{Machine, Refusal};
use hart::action::{Action, Stop};
use hart::plan::plan;
use memory::Memory;
use memory::access::{put_at, word_at};
use memory::lanes::merge;

// Memory and log are lent at each call and are no part of the machine, as a bus is not: their owner looks at them between calls.
// So each call says of both that what is `fixed` of them stays.
impl Machine {
    /// One step: the reason where the machine stops, which changes nothing; otherwise one instruction.
    pub fn step<M: Memory, L: Memory>(
        &mut self,
        memory: &mut M,
        log: &mut L,
    ) -> Result<Option<Stop>, Refusal>
        ensures step { Step self.old (M.Memory.words memory.old) (L.Memory.words log.old) self.new (M.Memory.words memory.new) (L.Memory.words log.new) result }
        ensures memory_home { M.Memory.fixed memory.new ≡ M.Memory.fixed memory.old }
        ensures log_home { L.Memory.fixed log.new ≡ L.Memory.fixed log.old }
    {
        self.check_sizes(memory, log)?;
        Ok(self.advance(memory, log))
    }

    /// Steps until one stops, and answers why.
    pub fn run<M: Memory, L: Memory>(
        &mut self,
        memory: &mut M,
        log: &mut L,
    ) -> Result<Stop, Refusal>
        ensures run { Run self.old (M.Memory.words memory.old) (L.Memory.words log.old) self.new (M.Memory.words memory.new) (L.Memory.words log.new) result }
        ensures memory_home { M.Memory.fixed memory.new ≡ M.Memory.fixed memory.old }
        ensures log_home { L.Memory.fixed log.new ≡ L.Memory.fixed log.old }
    {
        self.check_sizes(memory, log)?;
        loop {
            if let Some(stop) = self.advance(memory, log) {
                return Ok(stop);
            }
        }
    }

    // Refuses memories that are too small for the limits.
    pub(crate) fn check_sizes<M: Memory, L: Memory>(
        &self,
        memory: &M,
        log: &L,
    ) -> Result<(), Refusal>
        ensures sizes { MatchResult result (λ _. Fits self.now.limits (M.Memory.words memory.now) (L.Memory.words log.now)) (λ e. (as_no e ≡ (7, [])) × (Fits self.now.limits (M.Memory.words memory.now) (L.Memory.words log.now) → ⊥)) }
        ensures few { length (L.Memory.words log.now) ≤ 16384 }
    {
        let words = memory.size();
        let outputs = log.size();
        if words < self.limits.words as usize || outputs < self.limits.outputs as usize {
            return Err(Refusal::TooSmall);
        }
        Ok(())
    }

    // One step over memories of sufficient size.
    fn advance<M: Memory, L: Memory>(&mut self, memory: &mut M, log: &mut L) -> Option<Stop>
        requires fits { Fits self.old.limits (M.Memory.words memory.old) (L.Memory.words log.old) }
        requires few { length (L.Memory.words log.old) ≤ 16384 }
        ensures step { Advanced self.old.limits self.old.core (M.Memory.words memory.old) (L.Memory.words log.old) self.new.core (M.Memory.words memory.new) (L.Memory.words log.new) result }
        ensures limits { self.new.limits ≡ self.old.limits }
        ensures memory_home { M.Memory.fixed memory.new ≡ M.Memory.fixed memory.old }
        ensures log_home { L.Memory.fixed log.new ≡ L.Memory.fixed log.old }
    {
        let word = word_at(memory, (self.core.hart.pc / 4) as usize);
        match plan(self.limits, &self.core, word) {
            Action::Halt(stop) => Some(stop),
            Action::Next { pc, rd, value } => {
                self.core.retire(pc, rd, value);
                None
            }
            Action::Load {
                kind,
                rd,
                index,
                byte,
            } => {
                let word = word_at(memory, index as usize);
                self.core.retire_load(kind, rd, byte, word);
                None
            }
            Action::Store { index, word, lanes } => {
                let merged = merge(word_at(memory, index as usize), word, lanes);
                put_at(memory, index as usize, merged);
                self.core.retire_store();
                None
            }
            Action::Output(word) => {
                put_at(log, self.core.sent as usize, word);
                self.core.retire_output();
                None
            }
        }
    }
}
