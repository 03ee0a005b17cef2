//! A pass over the register, which gives one part of the opening lines.

ghost use Rattle.std.specs.Prelude.{◌≡◌, ◌≢◌, ◌+◌, ◌^◌, ◌<◌, ◌++◌, ◌∷◌, true, false, None, Some, Err, List, drop, option_map, OnOk, IfOk, IfErr, length, map};
ghost use Rattle.std.specs.List.{cons_option, list_all};
ghost use Rattle.csv.specs.Reading.{expected_len};
ghost use Rattle.csv.specs.Records.{fields_of};
ghost use Rattle.house_base.specs.Name.{is_name};
ghost use Rattle.house_model.specs.Text.{words};
ghost use Rattle.house_model.specs.declared.command.Command.TheVariants as command;
ghost use Rattle.command_text.specs.Printing.{command_line};
ghost use Rattle.call_file.specs.declared.fault.OpenFault.TheVariants as open_fault;
ghost use Rattle.call_file.specs.Keys.{said_by};
ghost use Rattle.call_file.specs.Opening.{Place, commands_of, place_of};
ghost use Rattle.call_file.specs.Pass.{due, either, found_at, found_in, found_of, given_in, has, places_due};
ghost use Rattle.call_file.specs.Records.{IsReading, rows_left, rows_of};
ghost use Rattle.call_file.specs.Register.{Fields, HasNoHeader, bad_record, bad_record_below_header, fits, is_header, width};

use crate::OpenFault;
use crate::entry::{Entry, conflicts_field, is_header, read_entry};
use crate::opening::Opening;
use crate::records::{RowFault, next_row, reader_of};
use crate::settings::{Settings, Version};
use command_text::{Command, next_word};
use csv::{ByteRecord, Reader};
use house_base::{Memory, Name};
use std::alloc::Global;
use std::collections::BTreeSet;

/// A part of the opening lines, to which each record adds its own.
#[derive(Clone, Copy, Debug, PartialEq, Eq)]
pub(crate) enum Part {
    Applicants,
    Places,
    Conflicts,
}

/// To which of the parts behind the applicants records add a line.
#[derive(Clone, Copy, Debug, PartialEq, Eq)]
pub(crate) struct Found {
    places: bool,
    conflicts: bool,
}

impl Found {
    /// To which parts an applicant with these conflicts adds.
    fn of(entry: &Entry, conflicts: &[u8]) -> Found
        ensures { result ≡ found_of entry.now conflicts.now }
    {
        Found {
            places: entry.cluster.is_some(),
            conflicts: next_word(conflicts).is_some(),
        }
    }

    fn or(self, other: Found) -> Found
        ensures { result ≡ either self other }
    {
        Found {
            places: self.places || other.places,
            conflicts: self.conflicts || other.conflicts,
        }
    }

    /// Whether a part has lines. Each record has an applicant.
    fn has(self, part: Part) -> bool
        ensures { result ≡ has self part }
    {
        match part {
            Part::Applicants => true,
            Part::Places => self.places,
            Part::Conflicts => self.conflicts,
        }
    }
}

/// Appends the lines of one part, for which the register is read only where an earlier pass found some.
pub(crate) fn push_found(
    alloc: Global,
    settings: &Settings,
    part: Part,
    found: Found,
    register: &[u8],
    opening: &mut Opening,
) -> Result<(), OpenFault>
    requires { found ≡ found_in settings.now.version (drop 1 (rows_of register.now)) }
    ensures pushed { OnOk result (opening.new
        ≡ opening.old ++ map command_line (commands_of part settings.now.version (drop 1 (rows_of register.now)))) }
    ensures refused { IfErr result (λ fault. fault ≢ OpenFault.Memory →
        option_map open_fault.BadRegister (bad_record (said_by settings.now) (rows_of register.now)) ≡ Some fault) }
{
    if found.has(part) {
        push_part(alloc, settings, part, register, opening)?;
    }
    Ok(())
}

/// Appends the lines of one part, and tells to which parts the records add. An error is the first record that is not of
/// its form.
pub(crate) fn push_part(
    alloc: Global,
    settings: &Settings,
    part: Part,
    register: &[u8],
    opening: &mut Opening,
) -> Result<Found, OpenFault>
    ensures formed { OnOk result (bad_record (said_by settings.now) (rows_of register.now) ≡ None) }
    ensures found { IfOk result (λ found. found ≡ found_in settings.now.version (drop 1 (rows_of register.now))) }
    ensures pushed { OnOk result (opening.new
        ≡ opening.old ++ map command_line (commands_of part settings.now.version (drop 1 (rows_of register.now)))) }
    ensures refused { IfErr result (λ fault. fault ≢ OpenFault.Memory →
        option_map open_fault.BadRegister (bad_record (said_by settings.now) (rows_of register.now)) ≡ Some fault) }
{
    let mut reader = reader_of(alloc, register);
    let mut row = ByteRecord::new(alloc);
    match take_header(settings.version, &mut reader, &mut row) {
        Ok(()) => push_rows(alloc, settings, part, &mut reader, &mut row, opening),
        Err(fault) => Err(fault.at(1)),
    }
}

/// Reads the first record of a register, which has to be the header.
fn take_header(
    version: Version,
    reader: &mut Reader<&[u8]>,
    row: &mut ByteRecord,
) -> Result<(), RowFault>
    requires reading { IsReading reader.old }
    requires first { expected_len reader.old ≡ None }
    ensures reading { OnOk result (IsReading reader.new) }
    ensures width { OnOk result (expected_len reader.new ≡ Some (width version)) }
    ensures found { OnOk result (rows_left reader.old ≡ fields_of row.new ∷ rows_left reader.new) }
    ensures header { OnOk result (is_header version (fields_of row.new) ≡ true) }
    ensures off { result ≡ Err RowFault.Off → HasNoHeader version (rows_left reader.old) }
{
    if !next_row(reader, row)? {
        return Err(RowFault::Off);
    }
    if is_header(version, row) {
        Ok(())
    } else {
        Err(RowFault::Off)
    }
}

/// The same of the records behind the header.
fn push_rows(
    alloc: Global,
    settings: &Settings,
    part: Part,
    reader: &mut Reader<&[u8]>,
    row: &mut ByteRecord,
    opening: &mut Opening,
) -> Result<Found, OpenFault>
    requires reading { IsReading reader.old }
    requires width { expected_len reader.old ≡ Some (width settings.now.version) }
    requires few { length (rows_left reader.old) + 2 < 2 ^ 64 }
    ensures formed { OnOk result (bad_record_below_header (said_by settings.now) 2 (rows_left reader.old) ≡ None) }
    ensures found { IfOk result (λ found. found ≡ found_in settings.now.version (rows_left reader.old)) }
    ensures pushed { OnOk result (opening.new
        ≡ opening.old ++ map command_line (commands_of part settings.now.version (rows_left reader.old))) }
    ensures refused { IfErr result (λ fault. fault ≢ OpenFault.Memory →
        option_map open_fault.BadRegister (bad_record_below_header (said_by settings.now) 2 (rows_left reader.old)) ≡ Some fault) }
{
    let mut given = BTreeSet::new(alloc);
    let mut found = Found {
        places: false,
        conflicts: false,
    };
    let mut number = 2;
    'records: loop {
        match next_row(reader, row) {
            Ok(true) => {}
            Ok(false) => return Ok(found),
            Err(fault) => return Err(fault.at(number)),
        }
        match push_row(alloc, settings, part, row, &mut given, opening) {
            Ok(more) => {
                found = found.or(more);
                number += 1;
            }
            Err(fault) => return Err(fault.at(number)),
        }
    }
}

/// Appends the lines that one record adds to a part, where the places of the set are given already, and tells to which
/// parts it adds.
fn push_row(
    alloc: Global,
    settings: &Settings,
    part: Part,
    row: &ByteRecord,
    given: &mut BTreeSet<(Name, u32)>,
    opening: &mut Opening,
) -> Result<Found, RowFault>
    ensures formed { OnOk result (fits (said_by settings.now) (fields_of row.now) ≡ true) }
    ensures off { result ≡ Err RowFault.Off → fits (said_by settings.now) (fields_of row.now) ≡ false }
    ensures found { IfOk result (λ found. found ≡ found_at settings.now.version (fields_of row.now)) }
    ensures pushed { OnOk result ((more : List Fields) →
        opening.new ++ map command_line (due part settings.now.version (given_in given.new) more)
        ≡ opening.old ++ map command_line (due part settings.now.version (given_in given.old) (fields_of row.now ∷ more))) }
{
    let Some(entry) = read_entry(settings, row) else {
        return Err(RowFault::Off);
    };
    let version = settings.version;
    let conflicts = conflicts_field(version, row);
    let found = Found::of(&entry, conflicts);
    match part {
        Part::Applicants => {
            opening.push(alloc, &Command::Applicant(entry.name, entry.person))?;
            Ok(found)
        }
        Part::Places => {
            push_place(alloc, version, &entry, given, opening)?;
            Ok(found)
        }
        Part::Conflicts => {
            push_conflicts(alloc, &entry.person, conflicts, opening)?;
            Ok(found)
        }
    }
}

/// Appends the place of an entry, where it has one. In the second version it is left out where it is given already.
fn push_place(
    alloc: Global,
    version: Version,
    entry: &Entry,
    given: &mut BTreeSet<(Name, u32)>,
    opening: &mut Opening,
) -> Result<(), Memory>
    ensures { OnOk result ((more : List Place) →
        opening.new ++ map command_line (places_due version (given_in given.new) more)
        ≡ opening.old ++ map command_line (places_due version (given_in given.old) (cons_option (place_of entry.now) more))) }
{
    let Some(cluster) = entry.cluster else {
        return Ok(());
    };
    match version {
        Version::First => opening.push(alloc, &Command::Place(entry.person, cluster)),
        Version::Second => {
            if given.insert((entry.person, cluster))? {
                opening.push(alloc, &Command::Place(entry.person, cluster))
            } else {
                Ok(())
            }
        }
    }
}

/// Appends the conflicts of a person with each of the names of a list.
fn push_conflicts(
    alloc: Global,
    person: &Name,
    names: &[u8],
    opening: &mut Opening,
) -> Result<(), Memory>
    requires { list_all is_name (words names.now) ≡ true }
    ensures { OnOk result (opening.new
        ≡ opening.old ++ map command_line (map (command.Conflict person.now) (words names.now))) }
{
    let mut rest = names;
    while let Some((word, after)) = next_word(rest) {
        let proposal = Name::read(word).unwrap();
        opening.push(alloc, &Command::Conflict(*person, proposal))?;
        rest = after;
    }
    Ok(())
}
