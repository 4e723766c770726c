// Where the machine stops, what it then leaves alone, and where it goes on.
use crate::bench::Board;
use crate::rows::X;
use crate::states::{
    LASTS, Last, OUTPUT, PASSES, Passed, STOPS, State, Stopped, VALUE, WRITES, Wrote,
};
use crate::table::IDLE;
use hart::action::Stop;
use std::process::Abort;
use std::test::Fail;

// The next step of a state goes on, to `pc` and with a register written; answers what it leaves.
fn go_on(rt: &impl Abort, state: &State, pc: u32, written: Option<X>) -> Board {
    let board = state.board();
    let after = board.retired(pc, written);
    board.expect(rt, &format_args!("{state:?}"), None, after);
    after
}

// The next step from a board, which is of a state, stops and changes nothing.
fn stop(rt: &impl Abort, state: &State, board: Board, why: Stop) {
    board.expect(rt, &format_args!("{state:?}"), Some(why), board);
}

#[test]
fn stops_change_nothing(rt: HostRuntime) {
    for Stopped(state, why) in &STOPS {
        stop(&rt, state, state.board(), *why);
    }
}

#[test]
fn near_a_stop(rt: HostRuntime) {
    for Passed(state, pc, written) in &PASSES {
        go_on(&rt, state, *pc, *written);
    }
}

#[test]
fn stops_at_the_next_step(rt: HostRuntime) {
    for Last(state, pc, written, why) in &LASTS {
        let after = go_on(&rt, state, *pc, *written);
        stop(&rt, state, after, *why);
    }
}

#[test]
fn stores_at_the_ends(rt: HostRuntime) {
    for Wrote(state, index, word) in &WRITES {
        let board = state.board();
        let mut after = board.retired(4, None);
        if let Some(cell) = after.cells.get_mut(*index) {
            *cell = *word;
        }
        board.expect(&rt, &format_args!("{state:?}"), None, after);
    }
}

// The same output three times, where two are allowed.
#[test]
fn outputs(rt: HostRuntime) {
    let none = OUTPUT.board();
    let mut one = none.retired(4, None);
    one.machine.core.sent = 1;
    one.log = [VALUE, IDLE];
    none.expect(&rt, &"the first output", None, one);
    one.machine.core.hart.pc = 0;
    let mut two = one.retired(4, None);
    two.machine.core.sent = 2;
    two.log = [VALUE, VALUE];
    one.expect(&rt, &"the second output", None, two);
    two.machine.core.hart.pc = 0;
    two.expect(&rt, &"the third output", Some(Stop::OutputsFull), two);
}

/// Each stop, its number and what it means.
const MEANINGS: [(Stop, u32, &str); 10] = [
    (
        Stop::Limit,
        1,
        "the count of instructions has reached the limit",
    ),
    (Stop::PastText, 2, "pc is at or above the end of the text"),
    (Stop::NoInstruction, 3, "the word at pc is no instruction"),
    (Stop::Ebreak, 4, "the next instruction is EBREAK"),
    (Stop::Ecall, 5, "the next instruction is ECALL"),
    (
        Stop::TargetMisaligned,
        6,
        "the target of a jump or taken branch is not a multiple of 4",
    ),
    (
        Stop::DataMisaligned,
        7,
        "a data address is not a multiple of the access's width",
    ),
    (
        Stop::OutOfRange,
        8,
        "a data address is at or above the end of the memory",
    ),
    (Stop::StoreToText, 9, "a store goes into the text"),
    (
        Stop::OutputsFull,
        10,
        "an output comes when the most outputs are already sent",
    ),
];

#[test]
fn numbers(rt: HostRuntime) {
    for (stop, number, _) in MEANINGS {
        assert_eq!(rt; stop.number(), number);
    }
}

#[test]
fn meanings(rt: HostRuntime) -> Result<(), Fail> {
    for (stop, _, meaning) in MEANINGS {
        assert_eq!(rt; stop.to_string(rt.alloc())?.as_str(), meaning);
    }
    Ok(())
}
