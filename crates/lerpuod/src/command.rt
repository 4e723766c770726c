// What the arguments ask for.
ghost use Rattle.std.specs.Prelude.{◌≡◌, [], ◌∷◌, codes, MatchResult};
ghost use Rattle.lerpuod.specs.Commands.{texts, Asks, Misuses, ExtraFirst};

use std::env::Args;
use thiserror::Error;

/// What the program is asked to do.
#[derive(Drop)]
pub enum Command {
    /// execute the built-in example
    Example,
    /// execute the image in this file without cuts
    Uninterrupted(String),
    /// tell what the program does
    Help,
}

/// Why the arguments are no command.
#[derive(Debug, Drop, Error)]
pub enum Misuse {
    /// no command has this name
    #[error("{0:?} is no command")]
    Unknown(String),
    #[error("\"uninterrupted\" lacks its image file")]
    NoImage,
    /// an argument after the last that the command takes
    #[error("{0:?} is one argument too many")]
    Extra(String),
}

impl Command {
    /// The command that the arguments behind the program's name give.
    pub fn parse(mut args: Args) -> Result<Command, Misuse>
        ensures { MatchResult result (Asks (texts args)) (Misuses (texts args)) }
    {
        let Some(name) = args.next() else {
            return Ok(Command::Example);
        };
        match name.as_str() {
            "uninterrupted" => uninterrupted(args),
            "help" => alone(Command::Help, args),
            _ => Err(Misuse::Unknown(name)),
        }
    }
}

// The command `uninterrupted`, by the arguments behind its name.
fn uninterrupted(mut args: Args) -> Result<Command, Misuse>
    ensures { MatchResult result (Asks (codes "uninterrupted" ∷ texts args)) (Misuses (codes "uninterrupted" ∷ texts args)) }
{
    let image = args.next().ok_or(Misuse::NoImage)?;
    alone(Command::Uninterrupted(image), args)
}

// The command, unless a further argument comes.
fn alone(command: Command, mut args: Args) -> Result<Command, Misuse>
    ensures { MatchResult result (λ k. (k ≡ command) × (texts args ≡ [])) (ExtraFirst (texts args)) }
{
    // a match is plainer: `map_or` tells the answer without an argument first, and the other in a closure
    match args.next() {
        Some(extra) => Err(Misuse::Extra(extra)),
        None => Ok(command),
    }
}

#[cfg(test)]
mod tests {
    use super::*;
    use std::alloc::Global;
    use std::test::Fail;

    fn parsed(heap: Global, words: &[&str]) -> Result<Result<Command, Misuse>, Fail> {
        let mut args = Vec::new(heap);
        for word in words {
            args.push(String::from_str(heap, *word)?)?;
        }
        Ok(Command::parse(args.into_iter()))
    }

    // What is wrong with the arguments.
    fn complaint(heap: Global, words: &[&str]) -> Result<String, Fail> {
        match parsed(heap, words)? {
            Ok(_) => Err(Fail::new("they are a command")),
            Err(misuse) => Ok(misuse.to_string(heap)?),
        }
    }

    #[test]
    fn commands(rt: HostRuntime) -> Result<(), Fail> {
        let heap = rt.alloc();
        assert!(rt; matches!(parsed(heap, &[])?, Ok(Command::Example)));
        assert!(rt; matches!(parsed(heap, &["help"])?, Ok(Command::Help)));
        match parsed(heap, &["uninterrupted", "a.img"])? {
            Ok(Command::Uninterrupted(image)) => {
                assert_eq!(rt; image.as_str(), "a.img");
                Ok(())
            },
            _ => Err(Fail::new("another command")),
        }
    }

    #[test]
    fn misuses(rt: HostRuntime) -> Result<(), Fail> {
        let heap = rt.alloc();
        assert_eq!(rt;
            complaint(heap, &["help!"])?.as_str(),
            "\"help!\" is no command"
        );
        assert_eq!(rt;
            complaint(heap, &["uninterrupted"])?.as_str(),
            "\"uninterrupted\" lacks its image file"
        );
        assert_eq!(rt;
            complaint(heap, &["help", "me"])?.as_str(),
            "\"me\" is one argument too many"
        );
        assert_eq!(rt;
            complaint(heap, &["uninterrupted", "a", "b"])?.as_str(),
            "\"b\" is one argument too many"
        );
        Ok(())
    }
}
