// An image executed over memories of the program's own.
ghost use Rattle.std.specs.Prelude.{◌≡◌};
ghost use Rattle.lerpuod.specs.Execution.{OutcomeOf};
ghost use Rattle.machine.specs.declared.Refusal.TheVariants.{Image as ImageRefused};
ghost use Rattle.lerpuod.specs.declared.execution.NoRun.TheVariants.{Refused, Memory};

use image::Image;
use image::header::Header;
use machine::execute::execute_on_words;
use machine::{End, Refusal};
use memory::MOST_WORDS;
use std::alloc::{AllocError, Global};

/// A run that came to its end.
#[derive(Drop)]
pub struct Run {
    pub header: Header,
    pub end: End,
    pub outputs: Vec<u32>,
}

/// Why an image has no run.
#[derive(Debug, Drop)]
pub enum NoRun {
    /// it is refused
    Refused(Refusal),
    /// no memory is left
    Memory,
}

// By hand, all three, since the contract of `execute` names the error that each `?` makes, and no derive says which.
impl From<image::Refusal> for NoRun {
    ghost from_gives = { λ e r. r ≡ Refused (ImageRefused e) };

    fn from(refusal: image::Refusal) -> NoRun {
        NoRun::Refused(Refusal::Image(refusal))
    }
}

impl From<Refusal> for NoRun {
    ghost from_gives = { λ e r. r ≡ Refused e };

    fn from(refusal: Refusal) -> NoRun {
        NoRun::Refused(refusal)
    }
}

impl From<AllocError> for NoRun {
    ghost from_gives = { λ _ r. r ≡ Memory };

    fn from(_error: AllocError) -> NoRun {
        NoRun::Memory
    }
}

/// Executes an image to its end, without cuts.
pub fn execute(heap: Global, bytes: &[u8]) -> Result<Run, NoRun>
    ensures { OutcomeOf bytes.now result }
{
    let image = Image::read(bytes)?;
    let mut memory = vec![in heap; 0u32; MOST_WORDS]?;
    let mut outputs = vec![in heap; 0u32; MOST_WORDS]?;
    let end = execute_on_words(bytes, memory.as_mut_slice(), outputs.as_mut_slice())?;
    outputs.truncate(end.core.sent as usize);
    Ok(Run {
        header: image.header(),
        end,
        outputs,
    })
}

#[cfg(test)]
mod tests {
    use super::*;
    use std::test::Fail;
    use worked_examples::example_image;

    #[test]
    fn refused_image(rt: HostRuntime) -> Result<(), Fail> {
        let mut bytes = example_image();
        // the entry's least significant byte
        bytes[12] = 2;
        match execute(rt.alloc(), &bytes) {
            Err(NoRun::Refused(refusal)) => {
                assert_eq!(rt; refusal, Refusal::Image(image::Refusal::Header(3)));
                Ok(())
            },
            Err(NoRun::Memory) => Err(Fail::new("there was not enough memory")),
            Ok(_) => Err(Fail::new("the image was executed")),
        }
    }
}
