// Each row of the tables, run by the machine.
use crate::bench::Board;
use crate::rows::{Branched, Computed, Linked, Loaded, Stored, X};
use crate::table::{
    BRANCHES, CELL, IMMEDIATES, LOADS, OPERATIONS, RELATIVES, START, STORES, WORDS,
};
use hart::action::Limits;
use std::process::Abort;

/// Where an instruction goes on that does not jump.
const NEXT: u32 = START + 4;

// A board with one instruction, the last of its text and the last that may run.
fn start(pc: u32, word: u32, before: &[X]) -> Board {
    let limits = Limits {
        text: pc / 4 + 1,
        words: WORDS as u32,
        outputs: 2,
        instructions: 8,
    };
    let mut board = Board::new(limits, pc, word);
    for register in before {
        board.set(*register);
    }
    board
}

fn compute(rt: &impl Abort, rows: &[Computed]) {
    for Computed(text, word, before, written) in rows {
        let board = start(START, *word, before);
        board.expect(rt, text, None, board.retired(NEXT, *written));
    }
}

#[test]
fn operations(rt: HostRuntime) {
    compute(&rt, &OPERATIONS);
}

#[test]
fn immediates(rt: HostRuntime) {
    compute(&rt, &IMMEDIATES);
}

#[test]
fn relatives(rt: HostRuntime) {
    for Linked(text, word, pc, before, next, written) in &RELATIVES {
        let board = start(*pc, *word, before);
        board.expect(&rt, text, None, board.retired(*next, Some(*written)));
    }
}

#[test]
fn branches(rt: HostRuntime) {
    for Branched(text, word, before, next) in &BRANCHES {
        let board = start(START, *word, before);
        board.expect(&rt, text, None, board.retired(*next, None));
    }
}

#[test]
fn loads(rt: HostRuntime) {
    for Loaded(text, word, before, cell, written) in &LOADS {
        let mut board = start(START, *word, before);
        board.cells[CELL] = *cell;
        board.expect(&rt, text, None, board.retired(NEXT, Some(*written)));
    }
}

#[test]
fn stores(rt: HostRuntime) {
    for Stored(text, word, before, cell, cell_after) in &STORES {
        let mut board = start(START, *word, before);
        board.cells[CELL] = *cell;
        let mut after = board.retired(NEXT, None);
        after.cells[CELL] = *cell_after;
        board.expect(&rt, text, None, after);
    }
}
