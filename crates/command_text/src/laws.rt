//! What follows from the definitions that the contracts cite. Each function states it, and does nothing.

ghost use Rattle.std.specs.Prelude.{◌≡◌, ◌++◌, List};
ghost use Rattle.std.specs.Option.{option_to_list};
ghost use Rattle.house_base.specs.Text.{Text};
ghost use Rattle.house_model.specs.Heard.{whole_lines};
ghost use Rattle.house_model.specs.Text.{lines};
ghost use Rattle.house_model.specs.declared.command.Command.{Command};
ghost use Rattle.command_text.specs.declared.line.Line.{Line};
ghost use Rattle.command_text.specs.declared.line.Line.TheVariants as kind;
ghost use Rattle.command_text.specs.Cutting.{AreFed, Feeding, ended_lines, fresh, last_after, rest_of, used_bytes};
ghost use Rattle.command_text.specs.Printing.{IsFormed, IsInBounds, command_line};
ghost use Rattle.command_text.specs.Reading.{Reads, ReadsOnlyAs};

/// In whatever pieces a text comes, the lines that feeds end are those of the used bytes that end with their
/// line feed, and with what is left behind the last they are all lines of these bytes.
pub fn pieces_give_the_lines()
    ensures whole { (feeds : List Feeding) → AreFed fresh feeds → ended_lines feeds ≡ whole_lines (used_bytes feeds) }
    ensures all { (feeds : List Feeding) → AreFed fresh feeds →
        ended_lines feeds ++ option_to_list (rest_of (last_after fresh feeds)) ≡ lines (used_bytes feeds) }
{}

/// A line is read in one way.
pub fn lines_are_read_in_one_way()
    ensures { (line : Text) (a b : Line) → Reads line a → Reads line b → a ≡ b }
{}

/// The line of a command is read as the command, for every command within the bounds that need no call.
pub fn commands_are_read_back()
    ensures { (c : Command) → IsFormed c → IsInBounds c → ReadsOnlyAs (command_line c) (kind.House c) }
{}
