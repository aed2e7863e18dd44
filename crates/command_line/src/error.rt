ghost use Rattle.std.specs.Prelude.{◌≡◌};
ghost use Rattle.clap.specs.Words.{kind_of};
ghost use Rattle.command_line.specs.Private.CommandLine.{error_of_kind};

use clap::error::ErrorKind;

/// Why words gave no command.
#[derive(Clone, Copy, Debug, PartialEq, Eq)]
pub enum WordsError {
    /// The words are no command.
    Usage,
    /// The words are a command, and memory was refused.
    NoMemory,
}

impl From<clap::Error> for WordsError {
    ghost from_gives = { λ e error. error ≡ error_of_kind (kind_of e) };

    fn from(e: clap::Error) -> WordsError {
        match e.kind() {
            ErrorKind::OutOfMemory => WordsError::NoMemory,
            _ => WordsError::Usage,
        }
    }
}
