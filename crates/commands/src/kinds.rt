// A command: a word and a start.
ghost use Rattle.std.specs.Prelude.{◌≡◌, ◌≢◌};
ghost use Rattle.commands.specs.Format.{spelled};
ghost use Rattle.commands.specs.declared.kinds.NoCommands.TheVariants.{Malformed};
ghost use Rattle.commands.specs.Stopped.{stopped};

use refusals::Refusal;
use refusals::failure::Failure;
use std::alloc::{AllocError, AllocFailed};

// What a command asks for: one of the three scans, or a value.
#[derive(Clone, Copy, PartialEq, Eq, Debug)]
pub enum Word {
    Str,
    Template,
    Resume,
    Value,
}

impl Word {
    // The word as it is spelled, with the space behind it.
    pub(crate) fn front(self) -> &'static [u8]
        ensures { result.now ≡ spelled self }
    {
        match self {
            Word::Str => b"string ",
            Word::Template => b"template ",
            Word::Resume => b"resume ",
            Word::Value => b"value ",
        }
    }
}

#[derive(Clone, Copy, PartialEq, Eq, Debug)]
pub struct Command {
    pub word: Word,
    pub start: usize,
}

// Why there are no commands: a line that is no command or a missing empty line, or want of memory.
#[derive(Clone, Copy, Debug)]
pub enum NoCommands {
    Malformed,
    NoMemory(AllocError),
}

impl<T: Drop> From<AllocFailed<T>> for NoCommands {
    ghost from_gives = { λ _ e. e ≢ Malformed };

    fn from(failed: AllocFailed<T>) -> NoCommands {
        NoCommands::NoMemory(failed.into())
    }
}

impl From<NoCommands> for Failure {
    ghost from_gives = { λ why failure. failure ≡ stopped why };

    fn from(why: NoCommands) -> Failure {
        match why {
            NoCommands::Malformed => Failure::Refused(Refusal::MalformedCommand),
            NoCommands::NoMemory(error) => Failure::NoMemory(error),
        }
    }
}
