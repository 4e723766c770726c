// The command `uninterrupted`: an image executed without cuts, and what its run left.
ghost use Rattle.std.specs.Prelude.{◌≡◌, ◌<◌};
ghost use Rattle.hart.specs.Registers.{reg};
ghost use Rattle.lerpuod.specs.declared.lines.Line.TheVariants.{Register};

use crate::execution::{NoRun, Run, execute};
use crate::fault::Fault;
use crate::lines::Line;
use crate::story::{Source, tell_numbers, tell_source, tell_stop};
use hart::state::Hart;
use std::io;

/// The number by which users know pc, after those of the registers.
const PC: u8 = 32;

/// Executes an image and prints its run, or why it has none.
pub fn show(rt: &HostRuntime, source: &Source, bytes: &[u8]) -> Result<(), Fault> {
    let run = match execute(rt.alloc(), bytes) {
        Ok(run) => run,
        Err(NoRun::Refused(refusal)) => return Ok(rt.println(Line::LoadRefused(refusal))?),
        Err(NoRun::Memory) => return Err(Fault::Memory),
    };
    tell_source(rt, source)?;
    tell_numbers(rt, run.header)?;
    Ok(show_run(rt, &run)?)
}

fn show_run(rt: &impl Print, run: &Run) -> io::Result<()> {
    let stop = run.end.stop;
    let instructions = run.end.core.ran;
    let outputs = run.end.core.sent;
    println!(rt; "# executed without cuts: {instructions} instructions, {outputs} outputs")?;
    tell_stop(rt, stop)?;
    print_outputs(rt, run.outputs.as_slice())?;
    print_registers(rt, &run.end.core.hart)?;
    rt.println(Line::End {
        stop,
        instructions,
        outputs,
    })
}

fn print_outputs(rt: &impl Print, outputs: &[u32]) -> io::Result<()> {
    for (number, word) in outputs.iter().enumerate() {
        rt.println(Line::Output {
            number,
            word: *word,
        })?;
    }
    Ok(())
}

fn print_registers(rt: &impl Print, hart: &Hart) -> io::Result<()> {
    for number in 0..PC {
        rt.println(register(hart, number))?;
    }
    rt.println(pc(hart))
}

// The line of a register. The number after theirs is that of pc, whose line is made below.
fn register(hart: &Hart, number: u8) -> Line
    requires { number < 32 }
    ensures { result ≡ Register number (reg hart.now.x number) }
{
    Line::Register {
        number,
        word: hart.read(number),
    }
}

// The line of pc.
fn pc(hart: &Hart) -> Line
    ensures { result ≡ Register 32 hart.now.pc }
{
    Line::Register {
        number: PC,
        word: hart.pc,
    }
}
