// What a processor keeps outside its memory.
ghost use Rattle.std.specs.Prelude.{◌≡◌};
ghost use Rattle.hart.specs.Registers.{reg, with_reg};
ghost use Rattle.hart.specs.State.{after, started, retired, retired_load, retired_output, onward};

use crate::alu::loaded;
use rv32i::instruction::LoadKind;

/// The registers x1 to x31, at `x[0]` to `x[30]`, and the program counter. Register 0 reads 0 and drops what is written to it.
#[derive(Clone, Copy, PartialEq, Eq, Debug)]
pub struct Hart {
    pub x: [u32; 31],
    pub pc: u32,
}

impl Hart {
    /// The value of register `r`; 0 for register 0, and for a number that no register has.
    pub fn read(&self, r: u8) -> u32
        ensures { result ≡ reg self.now.x r }
    {
        match r {
            1..=31 => self.x[usize::from(r) - 1],
            _ => 0,
        }
    }

    /// Puts `value` into register `r`, and changes nothing else.
    pub fn write(&mut self, r: u8, value: u32)
        ensures { self.new ≡ record { x = with_reg self.old.x r value; pc = self.old.pc } }
    {
        if let 1..=31 = r {
            self.x[usize::from(r) - 1] = value;
        }
    }

    // The address after the instruction at pc.
    pub(crate) fn after(&self) -> u32
        ensures { result ≡ after self.now.pc }
    {
        self.pc.wrapping_add(4)
    }
}

/// A hart with the number of outputs sent and of instructions run so far.
#[derive(Clone, Copy, PartialEq, Eq, Debug)]
pub struct Core {
    pub hart: Hart,
    pub sent: u32,
    pub ran: u32,
}

impl Core {
    /// The core at the start of a run: registers 0, pc at the entry, nothing sent, nothing run.
    pub fn start(entry: u32) -> Core
        ensures { result ≡ started entry }
    {
        Core {
            hart: Hart {
                x: [0; 31],
                pc: entry,
            },
            sent: 0,
            ran: 0,
        }
    }

    /// One instruction more, which goes to `pc` with `value` in register `rd`.
    pub fn retire(&mut self, pc: u32, rd: u8, value: u32)
        ensures { self.new ≡ retired self.old pc rd value }
    {
        self.hart.write(rd, value);
        self.hart.pc = pc;
        self.ran = self.ran.saturating_add(1);
    }

    /// One load more, of byte `byte` of `word` on, into register `rd`.
    pub fn retire_load(&mut self, kind: LoadKind, rd: u8, byte: u32, word: u32)
        ensures { self.new ≡ retired_load self.old kind rd byte word }
    {
        let after = self.hart.after();
        self.retire(after, rd, loaded(kind, word, byte));
    }

    /// One store more: no register changes.
    pub fn retire_store(&mut self)
        ensures { self.new ≡ retired self.old (onward self.old.hart).pc 0 0 }
    {
        let after = self.hart.after();
        self.retire(after, 0, 0);
    }

    /// One output more.
    pub fn retire_output(&mut self)
        ensures { self.new ≡ retired_output self.old }
    {
        self.sent = self.sent.saturating_add(1);
        self.retire_store();
    }
}
