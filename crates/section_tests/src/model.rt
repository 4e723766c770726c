// What a pile does, written plainly: a row of what each index has, and layers only by their numbers.
ghost use Rattle.std.specs.Prelude.{◌<◌, IfOk};

use section::Refusal;

/// Words of the memory; few, so that sets and pairs fill up.
pub const SIZE: usize = 40;

/// Pairs that one write-back layer holds.
const ROOM: usize = 8;

/// What a section memory answers.
pub type Answer<T> = Result<T, Refusal>;

/// The most indexes that the detector's sets hold, and the number of write-back layers over it.
#[derive(Clone, Copy)]
pub struct Shape {
    pub most_reads: usize,
    pub most_writes: usize,
    pub layers: usize,
}

/// A word that a layer holds back. Layers are counted from 1.
#[derive(Clone, Copy)]
struct Held {
    layer: usize,
    entered: u32,
    word: u32,
}

impl Held {
    // Lower layers come first, and in each the pairs in order of entering.
    fn comes_before(self, other: Held) -> bool {
        (self.layer, self.entered) < (other.layer, other.entered)
    }
}

/// What an index has.
#[derive(Clone, Copy)]
struct Row {
    word: u32,
    read_first: bool,
    write_first: bool,
    held: Option<Held>,
}

/// A detector under write-back layers.
#[derive(Drop)]
pub struct Model {
    shape: Shape,
    rows: [Row; SIZE],
    clock: u32,
}

impl Model {
    pub(crate) fn new(shape: Shape) -> Model {
        let row = Row {
            word: 0,
            read_first: false,
            write_first: false,
            held: None,
        };
        Model {
            shape,
            rows: [row; SIZE],
            clock: 0,
        }
    }

    fn row(&self, index: usize) -> Answer<Row>
        ensures { IfOk result (λ _. index < 40) }
    {
        self.rows.get(index).copied().ok_or(Refusal::OutOfRange)
    }

    pub(crate) fn look(&self, index: usize) -> Answer<u32> {
        Ok(self.row(index)?.word)
    }

    pub(crate) fn put(&mut self, index: usize, word: u32) -> Answer<()> {
        let row = self.row(index)?;
        self.rows[index] = Row { word, ..row };
        self.rows = self.rows.map(|row| Row { held: None, ..row });
        Ok(())
    }

    pub(crate) fn read(&mut self, index: usize) -> Answer<u32> {
        let row = self.row(index)?;
        if !row.read_first && !row.write_first {
            if self.count(|row| row.read_first) >= self.shape.most_reads {
                return Err(Refusal::Due);
            }
            self.rows[index].read_first = true;
        }
        Ok(row.held.map_or(row.word, |held| held.word))
    }

    pub(crate) fn write(&mut self, index: usize, word: u32, lanes: u32) -> Answer<()> {
        let row = self.row(index)?;
        if lanes < 1 || lanes > 15 {
            return Err(Refusal::Lanes);
        }
        self.rows[index] = if let Some(held) = row.held {
            let word = mixed(held.word, word, lanes);
            Row {
                held: Some(Held { word, ..held }),
                ..row
            }
        } else if row.read_first {
            let held = self.hold(mixed(row.word, word, lanes))?;
            Row {
                held: Some(held),
                ..row
            }
        } else {
            Row {
                word: mixed(row.word, word, lanes),
                write_first: row.write_first
                    || lanes == 15 && self.count(|row| row.write_first) < self.shape.most_writes,
                ..row
            }
        };
        Ok(())
    }

    // The lowest layer that has room takes the word.
    fn hold(&mut self, word: u32) -> Answer<Held> {
        let layer = (1..=self.shape.layers)
            .find(|layer| self.pairs_of(*layer) < ROOM)
            .ok_or(Refusal::Due)?;
        let entered = self.clock;
        self.clock = entered.wrapping_add(1);
        Ok(Held {
            layer,
            entered,
            word,
        })
    }

    // How many rows are so.
    fn count<F: Fn(&Row) -> bool + Drop>(&self, is: F) -> usize
        requires { F.IsAlwaysCallable is }
    {
        self.rows.iter().filter(|row| is(*row)).count()
    }

    fn pairs_of(&self, layer: usize) -> usize {
        self.count(|row| row.held.is_some_and(|held| held.layer == layer))
    }

    fn pairs_before(&self, held: Held) -> usize {
        self.count(|row| row.held.is_some_and(|other| other.comes_before(held)))
    }

    pub(crate) fn pair_count(&self) -> usize {
        self.count(|row| row.held.is_some())
    }

    /// Pair `k`: the one that as many others come before.
    pub(crate) fn pair(&self, k: usize) -> Answer<(u32, u32)> {
        let mut rows = (0..).zip(self.rows);
        rows.find_map(|(index, row)| {
            row.held
                .filter(|held| self.pairs_before(*held) == k)
                .map(|held| (index, held.word))
        })
        .ok_or(Refusal::NoPair)
    }

    pub(crate) fn forget(&mut self) {
        self.rows = self.rows.map(|row| Row {
            read_first: false,
            write_first: false,
            held: None,
            ..row
        });
    }
}

// `old` with the bytes that `lanes` name taken from `new`, by a mask.
fn mixed(old: u32, new: u32, lanes: u32) -> u32 {
    let mask = [0xff, 0xff00, 0x00ff_0000, 0xff00_0000]
        .iter()
        .enumerate()
        .filter(|(k, _)| lanes >> k & 1 == 1)
        .fold(0, |mask, (_, byte)| mask | byte);
    (old & !mask) | (new & mask)
}
