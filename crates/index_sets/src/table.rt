// The table: an index set that holds at most sixteen.
ghost use Rattle.std.specs.Prelude.{◌≡◌, ℕ, ◌<◌, ◌≤◌, false, Ok, ◌≢◌, slice_index};
ghost use Rattle.index_sets.specs.Refusals.{Refused};
ghost use Rattle.index_sets.specs.Finding.{Found};
ghost use Rattle.index_sets.specs.Sets.{none, Took};
ghost use Rattle.index_sets.specs.Among.{among_small};

use crate::entries::find;
use crate::{IndexSet, MOST_INDEXES, Refusal};

/// The most indexes of a table.
pub const ROOM: usize = 16;

/// At most sixteen indexes below 16,384, all different.
///
/// A row with its length, and no vector: a table is a plain value of fixed memory, copied as it stands, and changed by value, so that
/// its facts hold of every table.
#[derive(Clone, Copy)]
pub struct Table {
    len: usize,
    items: [u32; ROOM],
    ghost few: { len ≤ 16 },
    ghost small: { (j : ℕ) → j < len → slice_index items j < 16384 },
    ghost apart: { (j k : ℕ) → j < k → k < len → slice_index items j ≢ slice_index items k },
}

impl Table {
    ghost use Rattle.index_sets.specs.Tables.{indexes};

    /// The empty table.
    pub fn new() -> Table
        ensures { result.len ≡ 0 }
    {
        Table {
            len: 0,
            items: [0; ROOM],
        }
    }

    // The place of an index among those in use.
    fn place(&self, index: usize) -> Option<usize>
        ensures { Found (indexes self.now) index result }
    {
        find(&self.items[..self.len], index)
    }
}

impl IndexSet for Table {
    ghost use Rattle.index_sets.specs.Tables.{in_table};

    ghost member = { in_table };

    ghost below = { λ s k e. among_small s.items s.len k s.small e };

    fn has(&self, index: usize) -> bool {
        self.place(index).is_some()
    }

    /// Refuses 22 exactly if the table has sixteen other indexes.
    fn add(&mut self, index: usize) -> Result<(), Refusal>
        ensures took { Took (in_table self.old) index result (in_table self.new) }
        ensures full { index < 16384 → in_table self.old index ≡ false → self.old.len ≡ 16 → Refused 22 result }
        ensures room { index < 16384 → self.old.len < 16 → result ≡ Ok tt }
    {
        if index >= MOST_INDEXES {
            return Err(Refusal::OutOfRange);
        }
        if self.has(index) {
            return Ok(());
        }
        if self.len >= ROOM {
            return Err(Refusal::Full);
        }
        let mut items = self.items;
        items[self.len] = index as u32;
        *self = Table {
            len: self.len + 1,
            items,
        };
        Ok(())
    }

    fn clear(&mut self) {
        *self = Table::new();
    }
}
