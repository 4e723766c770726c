// Words in hexadecimal.
ghost use Rattle.std.specs.Prelude.{Some};
ghost use Rattle.lerpuod.specs.Hex.{hex};

use std::fmt;

/// A word that is printed as `0x` and eight lower-case digits.
#[derive(Clone, Copy)]
pub struct Hex(pub u32);

// The prefix stands in the text, since no clause says which one `{:#010x}` writes.
impl fmt::Display for Hex {
    ghost output = { λ w. Some (hex w.0) };

    fn fmt<W: fmt::Write>(&self, f: &mut fmt::Formatter<W>) -> fmt::Result {
        let word = self.0;
        write!(f, "0x{word:08x}")
    }
}
