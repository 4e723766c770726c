// The program's own story, in lines that begin with `# ` for tools to pass over.
use hart::action::Stop;
use image::header::Header;
use std::io;

/// Where an image comes from. An enum, and no `Option`, since a file that is missing is nothing that `None` should mean.
#[derive(Drop)]
pub enum Source {
    Example,
    File(String),
}

/// Tells which image it is.
pub fn tell_source(rt: &impl Print, source: &Source) -> io::Result<()> {
    match source {
        Source::Example => rt.println(
            "# image: the built-in example, which adds 1 to memory word 8 and puts the sum out",
        ),
        Source::File(name) => println!(rt; "# image: the file {name:?}"),
    }
}

/// Tells an image's numbers.
pub fn tell_numbers(rt: &impl Print, header: Header) -> io::Result<()> {
    let Header {
        words,
        text,
        given,
        entry,
        period,
        outputs,
        limit,
    } = header;
    println!(rt;
        "# memory: W = {words} words, T = {text} of them text, L = {given} of them given, entry = {entry}"
    )?;
    println!(rt;
        "# bounds: P = {period} instructions in a section, C = {outputs} outputs, limit = {limit} instructions"
    )
}

/// Tells by which stop a run ended.
pub fn tell_stop(rt: &impl Print, stop: Stop) -> io::Result<()> {
    let number = stop.number();
    println!(rt; "# it ended by stop {number}: {stop}")
}
