// The piles: each kind of set for reads and for writes, under zero to three write-back layers.
use crate::calls::exercise;
use crate::model::{SIZE, Shape};
use index_sets::IndexSet;
use index_sets::marks::Marks;
use index_sets::table::Table;
use memory::bank::WordBank;
use section::Refusal;
use section::detector::Detector;
use std::process::Abort;
use write_back::layer::WriteBack;

const TABLE: usize = 16;

// More indexes than the memory has words.
const MARKS: usize = 64;

/// A detector's two sets, and the most indexes that each holds.
#[derive(Drop)]
struct Sets<R, F> {
    reads: R,
    most_reads: usize,
    writes: F,
    most_writes: usize,
}

impl<R: IndexSet + Copy, F: IndexSet + Copy> Sets<R, F> {
    fn detector<'a>(&self, words: &'a mut [u32]) -> Detector<WordBank<'a>, R, F> {
        Detector::new(WordBank::new(words), self.reads, self.writes)
    }

    fn shape(&self, layers: usize) -> Shape {
        Shape {
            most_reads: self.most_reads,
            most_writes: self.most_writes,
            layers,
        }
    }
}

// Zero to three layers over a detector with such sets.
fn pile_up<R: IndexSet + Copy + Drop, F: IndexSet + Copy + Drop>(
    rt: &impl Abort,
    sets: &Sets<R, F>,
) {
    let mut words = [0; SIZE];
    exercise(rt, &mut sets.detector(&mut words), sets.shape(0), 1);
    words = [0; SIZE];
    let mut pile = WriteBack::new(sets.detector(&mut words));
    exercise(rt, &mut pile, sets.shape(1), 2);
    words = [0; SIZE];
    let mut pile = WriteBack::new(WriteBack::new(sets.detector(&mut words)));
    exercise(rt, &mut pile, sets.shape(2), 3);
    words = [0; SIZE];
    let mut pile = WriteBack::new(WriteBack::new(WriteBack::new(sets.detector(&mut words))));
    exercise(rt, &mut pile, sets.shape(3), 4);
}

#[test]
fn tables(rt: HostRuntime) {
    let sets = Sets {
        reads: Table::new(),
        most_reads: TABLE,
        writes: Table::new(),
        most_writes: TABLE,
    };
    pile_up(&rt, &sets);
}

#[test]
fn table_and_marks(rt: HostRuntime) {
    let sets = Sets {
        reads: Table::new(),
        most_reads: TABLE,
        writes: Marks::new(),
        most_writes: MARKS,
    };
    pile_up(&rt, &sets);
}

#[test]
fn marks_and_table(rt: HostRuntime) {
    let sets = Sets {
        reads: Marks::new(),
        most_reads: MARKS,
        writes: Table::new(),
        most_writes: TABLE,
    };
    pile_up(&rt, &sets);
}

#[test]
fn marks(rt: HostRuntime) {
    let sets = Sets {
        reads: Marks::new(),
        most_reads: MARKS,
        writes: Marks::new(),
        most_writes: MARKS,
    };
    pile_up(&rt, &sets);
}

#[test]
fn refusals(rt: HostRuntime) {
    assert_eq!(rt; Refusal::OutOfRange.number(), 20);
    assert_eq!(rt; Refusal::Due.number(), 21);
    assert_eq!(rt; Refusal::Lanes.number(), 23);
    assert_eq!(rt; Refusal::NoPair.number(), 24);
}
