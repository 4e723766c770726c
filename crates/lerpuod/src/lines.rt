// The lines that scripts read.
ghost use Rattle.std.specs.Prelude.{Some};
ghost use Rattle.lerpuod.specs.Lines.{line};

use crate::hex::Hex;
use hart::action::Stop;
use machine::Refusal;
use std::fmt;

/// A line of what a run left, or of why there was none.
#[derive(Clone, Copy)]
pub enum Line {
    /// an output, by its number from 0
    Output {
        number: usize,
        word: u32,
    },
    /// a register, by its number; 32 is pc
    Register {
        number: u8,
        word: u32,
    },
    /// the end: its stop, and the counts
    End {
        stop: Stop,
        instructions: u32,
        outputs: u32,
    },
    /// an image that was not loaded
    LoadRefused(Refusal),
}

// Written out, since a derive says nothing of the text in `output`.
impl fmt::Display for Line {
    ghost output = { λ l. Some (line l) };

    fn fmt<W: fmt::Write>(&self, f: &mut fmt::Formatter<W>) -> fmt::Result {
        match *self {
            Line::Output { number, word } => {
                let word = Hex(word);
                write!(f, "output {number}: {word}")
            }
            Line::Register { number, word } => {
                let word = Hex(word);
                write!(f, "register {number}: {word}")
            }
            Line::End {
                stop,
                instructions,
                outputs,
            } => {
                let stop = stop.number();
                write!(
                    f,
                    "end: stop {stop}, {instructions} instructions, {outputs} outputs"
                )
            }
            Line::LoadRefused(refusal) => {
                let number = refusal.number();
                match refusal {
                    Refusal::Image(image::Refusal::Header(position)) => {
                        write!(f, "load: refused {number} {position}: {refusal}")
                    }
                    _ => write!(f, "load: refused {number}: {refusal}"),
                }
            }
        }
    }
}

#[cfg(test)]
mod tests {
    use super::*;
    use image::Refusal as ImageRefusal;
    use std::test::Fail;

    const REFUSALS: [(Refusal, &str); 11] = [
        (
            Refusal::Image(ImageRefusal::Length),
            "load: refused 2: the length is not a multiple of 4, or less than 28 bytes",
        ),
        (
            Refusal::Image(ImageRefusal::Header(0)),
            "load: refused 5 0: the memory size is not 1 to 16384 words",
        ),
        (
            Refusal::Image(ImageRefusal::Header(1)),
            "load: refused 5 1: the text size is 0 or above the memory size",
        ),
        (
            Refusal::Image(ImageRefusal::Header(2)),
            "load: refused 5 2: the memory words given are fewer than the text or more than the memory",
        ),
        (
            Refusal::Image(ImageRefusal::Header(3)),
            "load: refused 5 3: the entry is not a multiple of 4 inside the text",
        ),
        (
            Refusal::Image(ImageRefusal::Header(4)),
            "load: refused 5 4: the watchdog period is not 1 to 65535 instructions",
        ),
        (
            Refusal::Image(ImageRefusal::Header(5)),
            "load: refused 5 5: the most outputs are above 16384",
        ),
        (
            Refusal::Image(ImageRefusal::Header(6)),
            "load: refused 5 6: the most instructions are 0",
        ),
        (
            Refusal::Image(ImageRefusal::Header(7)),
            "load: refused 5 7: a header word breaks its rule",
        ),
        (
            Refusal::Image(ImageRefusal::Size),
            "load: refused 6: the length is not 28 bytes and 4 for each memory word given",
        ),
        (
            Refusal::TooSmall,
            "load: refused 7: a memory has too few words for the image",
        ),
    ];

    #[test]
    fn refusals(rt: HostRuntime) -> Result<(), Fail> {
        for (refusal, text) in REFUSALS {
            let line = Line::LoadRefused(refusal);
            assert_eq!(rt; line.to_string(rt.alloc())?.as_str(), text);
        }
        Ok(())
    }
}
