//! What a line commands.

ghost use Rattle.std.specs.Prelude.{◌≡◌};
ghost use Rattle.house_model.specs.Commands.{verb_of_command};

use crate::command::Command;

/// What the first word of a line commands.
#[derive(Clone, Copy, Debug, PartialEq, Eq)]
pub enum Verb {
    Call,
    Applicant,
    Conflict,
    Place,
    Partition,
    Pair,
    Seal,
    Assign,
    Close,
    Draw,
    Lottery,
    /// No command.
    Other,
}

impl Verb {
    /// What a command is called. It is never `Other`.
    pub fn of(command: Command) -> Verb
        ensures { result ≡ verb_of_command command }
    {
        match command {
            Command::Call(_) => Verb::Call,
            Command::Applicant(_, _) => Verb::Applicant,
            Command::Conflict(_, _) => Verb::Conflict,
            Command::Place(_, _) => Verb::Place,
            Command::Partition(_) => Verb::Partition,
            Command::Pair(_, _) => Verb::Pair,
            Command::Seal(_) => Verb::Seal,
            Command::Assign => Verb::Assign,
            Command::Close => Verb::Close,
            Command::Draw(_) => Verb::Draw,
            Command::Lottery(_) => Verb::Lottery,
        }
    }
}
