// A machine beside its memory and its log, taken one step; everything that it has is compared.
use crate::rows::X;
use crate::table::{IDLE, WORDS};
use hart::action::{Limits, Stop};
use hart::state::{Core, Hart};
use machine::Machine;
use memory::bank::WordBank;
use std::fmt;
use std::process::Abort;

/// The words of the log.
pub const OUTPUTS: usize = 2;

/// A machine between two steps, its memory and its log.
#[derive(Clone, Copy, PartialEq, Eq)]
pub struct Board {
    pub machine: Machine,
    pub cells: [u32; WORDS],
    pub log: [u32; OUTPUTS],
}

impl Board {
    /// A board with a word at pc; all else is idle.
    pub(crate) fn new(limits: Limits, pc: u32, word: u32) -> Board {
        let hart = Hart { x: [IDLE; 31], pc };
        let core = Core {
            hart,
            sent: 1,
            ran: 7,
        };
        let mut cells = [IDLE; WORDS];
        if let Some(cell) = cells.get_mut((pc / 4) as usize) {
            *cell = word;
        }
        Board {
            machine: Machine { limits, core },
            cells,
            log: [IDLE; OUTPUTS],
        }
    }

    /// Puts a word into its register; x0 has no place. Not by `write`, which is among what is tested.
    pub(crate) fn set(&mut self, X(number, word): X) {
        if let 1..=31 = number {
            self.machine.core.hart.x[usize::from(number) - 1] = word;
        }
    }

    /// The same after one instruction more, which goes to `pc` and writes at most one register.
    pub(crate) fn retired(mut self, pc: u32, written: Option<X>) -> Board {
        if let Some(register) = written {
            self.set(register);
        }
        self.machine.core.hart.pc = pc;
        self.machine.core.ran = self.machine.core.ran.saturating_add(1);
        self
    }

    /// One step answers `answer`, and leaves `after`; `what` names the row in a failure.
    pub(crate) fn expect(
        mut self,
        rt: &impl Abort,
        what: &impl fmt::Display,
        answer: Option<Stop>,
        after: Board,
    ) {
        let stop = self.machine.step(
            &mut WordBank::new(&mut self.cells),
            &mut WordBank::new(&mut self.log),
        );
        assert_eq!(rt; stop, Ok(answer), "{what}");
        let hart = self.machine.core.hart;
        let wanted = after.machine.core.hart;
        assert_eq!(rt; hart.pc, wanted.pc, "{what}: pc");
        for r in 0..32 {
            assert_eq!(rt; hart.read(r), wanted.read(r), "{what}: x{r}");
        }
        assert_eq!(rt; self.machine, after.machine, "{what}");
        assert_eq!(rt; self.log, after.log, "{what}: log");
        assert!(rt; self == after, "{what}: memory");
    }
}
