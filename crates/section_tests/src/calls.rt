// Random calls, made of a pile and of its model; every answer and all words are compared.
use crate::model::{Model, SIZE, Shape};
use memory::Memory;
use section::section::Section;
use std::process::Abort;

/// Calls made of each pile.
const CALLS: u32 = 400;

/// A call of a section memory.
#[derive(Clone, Copy)]
enum Call {
    Read(usize),
    Write { index: usize, word: u32, lanes: u32 },
    Put { index: usize, word: u32 },
    Forget,
}

/// A row of numbers that look random, and are the same in every run.
#[derive(Drop)]
struct Dice(u32);

impl Dice {
    fn roll(&mut self) -> u32 {
        let mut x = self.0;
        x ^= x << 13;
        x ^= x >> 17;
        x ^= x << 5;
        self.0 = x;
        x
    }

    // An index, sometimes just past the end.
    fn index(&mut self) -> usize {
        (self.roll() % 43) as usize
    }

    // Mostly reads and writes, and half of the writes of all four bytes.
    fn call(&mut self) -> Call {
        let index = self.index();
        let word = self.roll();
        match self.roll() % 64 {
            0..=29 => Call::Read(index),
            30..=44 => Call::Write {
                index,
                word,
                lanes: 15,
            },
            45..=60 => Call::Write {
                index,
                word,
                lanes: self.roll() % 18,
            },
            61 => Call::Put { index, word },
            _ => Call::Forget,
        }
    }
}

/// Makes the same calls of a pile and of its model.
pub(crate) fn exercise<S: Section>(rt: &impl Abort, pile: &mut S, shape: Shape, seed: u32) {
    assert_eq!(rt; S::H, S::limit());
    assert_eq!(rt; S::H, 8 * shape.layers.min(8));
    assert_eq!(rt; (*pile).size(), SIZE);
    let mut model = Model::new(shape);
    let mut dice = Dice(seed);
    for _ in 0..CALLS {
        make(rt, dice.call(), pile, &mut model);
        compare_pairs(rt, pile, &model);
        compare_words(rt, pile, &model);
    }
}

// Makes a call of both.
fn make<S: Section>(rt: &impl Abort, call: Call, pile: &mut S, model: &mut Model) {
    match call {
        Call::Read(index) => {
            assert_eq!(rt; pile.read(index), model.read(index));
        }
        Call::Write { index, word, lanes } => {
            assert_eq!(rt;
                pile.write(index, word, lanes),
                model.write(index, word, lanes)
            );
        }
        Call::Put { index, word } => {
            assert_eq!(rt;
                pile.put(index, word).is_ok(),
                model.put(index, word).is_ok()
            );
        }
        Call::Forget => {
            pile.forget();
            model.forget();
        }
    }
}

fn compare_pairs<S: Section>(rt: &impl Abort, pile: &S, model: &Model) {
    assert_eq!(rt; pile.pair_count(), model.pair_count());
    for k in 0..SIZE {
        assert_eq!(rt; pile.held(k), model.pair(k));
    }
}

fn compare_words<S: Section>(rt: &impl Abort, pile: &S, model: &Model) {
    for i in 0..SIZE {
        assert_eq!(rt; pile.look(i).unwrap_or(0), model.look(i).unwrap_or(1));
    }
    assert!(rt; pile.look(SIZE).is_err());
}
