// The start of an image's run.
ghost use Rattle.std.specs.Prelude.{◌≡◌, ◌≤◌, length};
ghost use Rattle.machine.specs.Calls.{Load, Filled, whole_words};
ghost use Rattle.machine.specs.Run.{limits_of};

use crate::{Machine, Refusal};
use hart::action::Limits;
use hart::state::Core;
use image::Image;
use image::header::Header;
use memory::Memory;
use memory::access::put_at;

impl Machine {
    /// Puts an image's words into the memory, zeros after them up to the image's size, and answers the machine at the start of
    /// its run. A refusal changes nothing.
    pub fn load<M: Memory, L: Memory>(
        bytes: &[u8],
        memory: &mut M,
        log: &L,
    ) -> Result<Machine, Refusal>
        ensures load { Load bytes.now (M.Memory.words memory.old) (length (L.Memory.words log.now)) (M.Memory.words memory.new) result }
        ensures home { M.Memory.fixed memory.new ≡ M.Memory.fixed memory.old }
    {
        let image = Image::read(bytes)?;
        let header = image.header();
        let machine = Machine {
            limits: limits(header),
            core: Core::start(header.entry),
        };
        machine.check_sizes(memory, log)?;
        put_words(&image, header.words, memory);
        Ok(machine)
    }
}

// The numbers of a header that bound a run. No `From`, since both types are of other crates.
fn limits(header: Header) -> Limits
    ensures { result ≡ limits_of header }
{
    Limits {
        text: header.text,
        words: header.words,
        outputs: header.outputs,
        instructions: header.limit,
    }
}

// Puts the image's words from word 0 on, zeros after them, `count` in all.
fn put_words<M: Memory>(image: &Image<'_>, count: u32, memory: &mut M)
    requires { count ≤ length (M.Memory.words memory.old) }
    ensures words { Filled (whole_words image.now.memory.now) count (M.Memory.words memory.old) (M.Memory.words memory.new) }
    ensures home { M.Memory.fixed memory.new ≡ M.Memory.fixed memory.old }
{
    for i in 0..count as usize {
        put_at(memory, i, image.word(i).unwrap_or(0));
    }
}
