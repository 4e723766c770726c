// Worked examples: the example image, and what is proved of it and of other examples.
#![tactic(auto)]

ghost use Rattle.std.specs.Prelude.{◌≡◌};
ghost use Rattle.worked_examples.specs.Examples.{example, WorkedExamples};

/// The bytes of the example image: W 9, T 6, L 6, entry 0, P 100, C 4, limit 50, then its text. It reads word 8, adds 1, stores
/// it there, and puts it out.
pub fn example_image() -> [u8; 52]
    ensures bytes { result ≡ example }
    ensures examples { WorkedExamples }
{
    *b"\x09\x00\x00\x00\x06\x00\x00\x00\x06\x00\x00\x00\x00\x00\x00\x00\
       \x64\x00\x00\x00\x04\x00\x00\x00\x32\x00\x00\x00\
       \x83\x21\x00\x02\x93\x81\x11\x00\x23\x20\x30\x02\
       \x37\x01\x00\x80\x23\x20\x31\x00\x73\x00\x10\x00"
}
