// The program: executes images and prints what they do.
#![tactic(auto)]

mod command;
mod execution;
mod fault;
mod file;
mod help;
mod hex;
mod lines;
mod story;
mod uninterrupted;

use crate::command::Command;
use crate::fault::Fault;
use crate::file::InputFile;
use crate::story::Source;
use std::env;
use std::process::ExitCode;
use worked_examples::example_image;

// An exit code and no `Result`, whose error the runtime would print once more.
fn main(rt: HostRuntime) -> ExitCode {
    match obey(&rt) {
        Ok(()) => ExitCode::SUCCESS,
        Err(fault) => {
            let _ = eprintln!(rt; "lerpuod: {fault}");
            ExitCode::FAILURE
        }
    }
}

// Does what the arguments ask for.
fn obey(rt: &HostRuntime) -> Result<(), Fault> {
    let mut args = env::args(rt).map_err(Fault::Arguments)?;
    let _program = args.next();
    match Command::parse(args)? {
        Command::Example => uninterrupted::show(rt, &Source::Example, &example_image()),
        Command::Uninterrupted(image) => {
            let InputFile { name, bytes } = InputFile::read(rt, image)?;
            uninterrupted::show(rt, &Source::File(name), bytes.as_slice())
        }
        Command::Help => Ok(help::print(rt)?),
    }
}
