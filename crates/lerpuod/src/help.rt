// What the program says of itself.
use std::io;

const TEXT: &str = "\
lerpuod executes RV32I programs and prints what they did.

    lerpuod                       execute the built-in example without cuts
    lerpuod uninterrupted IMAGE   execute IMAGE to its end without cuts
    lerpuod help                  print this text

IMAGE is a binary file of words, least significant byte first: seven header
words (W, T, L, entry, P, C, limit), then L words of memory.

Lines that begin with # tell the story of the run. After them comes a line for
each output, for each register (32 is pc), and for the end. For an image that
is refused one line tells the refusal's number and its reason.
";

/// Prints the commands, and what the program prints for them.
pub fn print(rt: &impl Print) -> io::Result<()> {
    rt.print(TEXT)
}
