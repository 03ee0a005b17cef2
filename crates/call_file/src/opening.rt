//! The opening lines of a call file and a register.

ghost use Rattle.std.specs.Prelude.{◌≡◌, ◌≢◌, ◌+◌, ◌≤◌, ◌++◌, ◌∷◌, [], Ok, Err, IfOk, IfErr, OnOk, option_map, length, map};
ghost use Rattle.std.specs.Option.{option_to_list};
ghost use Rattle.house_model.specs.declared.command.Command.TheVariants as command;
ghost use Rattle.command_text.specs.Printing.{command_line};
ghost use Rattle.call_file.specs.Keys.{said_by};
ghost use Rattle.call_file.specs.Opening.{lines_in, opened, read_call};

use crate::OpenFault;
use crate::pass::{Part, push_found, push_part};
use crate::settings::{Settings, read_settings};
use command_text::{Command, Lines, print_command};
use house_base::{Memory, Seed};
use std::alloc::Global;
use std::marker::Model;

/// The opening lines of a call file and a register, as a spreadsheet exports it: each is the line of a command, and
/// none is an `assign`. The call file is read first, and of what is refused the first is answered.
#[tactic(auto, unfolding(crate::specs::Opening::opened))]
pub fn open_lines(alloc: Global, call: &[u8], register: &[u8]) -> Result<Lines, OpenFault>
    ensures ok { IfOk result (λ lines. opened call.now register.now ≡ Ok lines) }
    ensures refused { IfErr result (λ fault. fault ≢ OpenFault.Memory → opened call.now register.now ≡ Err fault) }
    ensures few { IfOk result (λ lines. length lines ≤ length register.now + 3) }
{
    match read_call(alloc, call) {
        Ok(settings) => lines_of(alloc, &settings, register),
        Err(fault) => Err(fault),
    }
}

#[tactic(auto, unfolding(crate::specs::Opening::read_call, crate::specs::Keys::document))]
fn read_call(alloc: Global, call: &[u8]) -> Result<Settings, OpenFault>
    ensures ok { IfOk result (λ settings. read_call call.now ≡ Ok (said_by settings)) }
    ensures refused { IfErr result (λ fault. fault ≢ OpenFault.Memory → read_call call.now ≡ Err fault) }
{
    match toml::table_from_slice(alloc, call) {
        Ok(table) => Ok(read_settings(&table)?),
        Err(error) if error.is_memory() => Err(OpenFault::Memory),
        Err(_) => Err(OpenFault::BadToml),
    }
}

/// The lines that a register gives with what the call file says. It is read for the applicants, and once more for each
/// other part to which a record adds.
fn lines_of(alloc: Global, settings: &Settings, register: &[u8]) -> Result<Lines, OpenFault>
    ensures ok { IfOk result (λ lines. lines_in (said_by settings.now) register.now ≡ Ok lines) }
    ensures refused { IfErr result (λ fault. fault ≢ OpenFault.Memory → lines_in (said_by settings.now) register.now ≡ Err fault) }
    ensures few { IfOk result (λ lines. length lines ≤ length register.now + 3) }
{
    let mut opening = Opening::new(alloc);
    opening.push(alloc, &Command::Call(settings.call))?;
    let found = push_part(alloc, settings, Part::Applicants, register, &mut opening)?;
    push_seed(alloc, settings.partition, &mut opening)?;
    push_found(alloc, settings, Part::Places, found, register, &mut opening)?;
    push_found(
        alloc,
        settings,
        Part::Conflicts,
        found,
        register,
        &mut opening,
    )?;
    push_digest(alloc, settings.seal, &mut opening)?;
    Ok(opening.into_lines())
}

/// Appends the line of the seed from which the clusters are drawn, where they are.
fn push_seed(alloc: Global, seed: Option<Seed>, opening: &mut Opening) -> Result<(), Memory>
    ensures { OnOk result (opening.new
        ≡ opening.old ++ map command_line (option_to_list (option_map command.Partition seed))) }
{
    match seed {
        Some(seed) => opening.push(alloc, &Command::Partition(seed)),
        None => Ok(()),
    }
}

/// Appends the line of the digest to which the lottery has to keep, where there is one.
fn push_digest(alloc: Global, digest: Option<[u8; 32]>, opening: &mut Opening) -> Result<(), Memory>
    ensures { OnOk result (opening.new
        ≡ opening.old ++ map command_line (option_to_list (option_map command.Seal digest))) }
{
    match digest {
        Some(digest) => opening.push(alloc, &Command::Seal(digest)),
        None => Ok(()),
    }
}

/// The lines of commands, with room for the text of the next.
#[derive(Drop)]
pub(crate) struct Opening {
    lines: Lines,
    text: Vec<u8>,
}

impl Model for Opening {
    ghost use Rattle.std.specs.Prelude.{ℕ, List};

    ghost Value = { List (List ℕ) };

    ghost view = { λ opening. opening.lines };
}

impl Opening {
    /// No lines.
    pub(crate) fn new(alloc: Global) -> Opening
        ensures { result ≡ [] }
    {
        Opening {
            lines: Lines::new(alloc),
            text: Vec::new(alloc),
        }
    }

    /// Appends the line of a command.
    pub(crate) fn push(&mut self, alloc: Global, command: &Command) -> Result<(), Memory>
        ensures { OnOk result (self.new ≡ self.old ++ command_line command.now ∷ []) }
    {
        self.text.clear();
        print_command(alloc, command, &mut self.text)?;
        let line = &self.text.as_slice()[..self.text.len() - 1];
        self.lines.push(line)
    }

    pub(crate) fn into_lines(self) -> Lines
        ensures { result ≡ self }
    {
        self.lines
    }
}
