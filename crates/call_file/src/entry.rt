//! What a record of the register says of an applicant.

ghost use Rattle.std.specs.Prelude.{◌≡◌, is_some, IfSome};
ghost use Rattle.std.specs.List.{list_all};
ghost use Rattle.csv.specs.Records.{fields_of};
ghost use Rattle.house_base.specs.Name.{is_name};
ghost use Rattle.house_model.specs.Text.{words};
ghost use Rattle.call_file.specs.Keys.{said_by};
ghost use Rattle.call_file.specs.Register.{are_conflicts, cluster_field, cluster_fits, cluster_in, conflicts_field, entry_of, field, fits, is_header, names_columns, person_field, person_fits, person_in, width};

use crate::settings::{Settings, Version};
use command_text::next_word;
use csv::ByteRecord;
use house_base::limits::MOST_CLUSTERS;
use house_base::{Name, read_number};

/// An applicant, but for its conflicts.
#[derive(Clone, Copy)]
pub(crate) struct Entry {
    pub(crate) name: Name,
    pub(crate) person: Name,
    pub(crate) cluster: Option<u32>,
}

/// Whether a record is the header.
#[tactic(auto, unfolding(crate::specs::Register::is_header))]
pub(crate) fn is_header(version: Version, row: &ByteRecord) -> bool
    ensures { result ≡ is_header version (fields_of row.now) }
{
    row.len() == width(version) && names_columns(version, row)
}

fn names_columns(version: Version, row: &ByteRecord) -> bool
    ensures { result ≡ names_columns version (fields_of row.now) }
{
    match version {
        Version::First => {
            field(row, 0) == b"name".as_slice()
                && field(row, 1) == b"cluster".as_slice()
                && field(row, 2) == b"conflicts".as_slice()
        }
        Version::Second => {
            field(row, 0) == b"name".as_slice()
                && field(row, 1) == b"person".as_slice()
                && field(row, 2) == b"cluster".as_slice()
                && field(row, 3) == b"conflicts".as_slice()
        }
    }
}

/// The applicant of a record. None where the record is not of its form.
#[tactic(auto, unfolding(crate::specs::Register::fits))]
pub(crate) fn read_entry(settings: &Settings, row: &ByteRecord) -> Option<Entry>
    ensures form { is_some result ≡ fits (said_by settings.now) (fields_of row.now) }
    ensures value { IfSome result (λ entry. entry ≡ entry_of settings.now.version (fields_of row.now)) }
{
    let version = settings.version;
    if row.len() != width(version) {
        return None;
    }
    let name = Name::read(field(row, 0))?;
    let person = read_person(name, person_field(version, row))?;
    let cluster = read_cluster(settings.partition.is_some(), cluster_field(version, row))?;
    if !are_conflicts(conflicts_field(version, row)) {
        return None;
    }
    Some(Entry {
        name,
        person,
        cluster,
    })
}

/// The field of a record that lists the conflicts.
pub(crate) fn conflicts_field(version: Version, row: &ByteRecord) -> &[u8]
    ensures { result.now ≡ conflicts_field version (fields_of row.now) }
{
    match version {
        Version::First => field(row, 2),
        Version::Second => field(row, 3),
    }
}

fn person_field(version: Version, row: &ByteRecord) -> &[u8]
    ensures { result.now ≡ person_field version (fields_of row.now) }
{
    match version {
        Version::First => &[],
        Version::Second => field(row, 1),
    }
}

fn cluster_field(version: Version, row: &ByteRecord) -> &[u8]
    ensures { result.now ≡ cluster_field version (fields_of row.now) }
{
    match version {
        Version::First => field(row, 1),
        Version::Second => field(row, 2),
    }
}

/// How many fields a record has.
fn width(version: Version) -> usize
    ensures { result ≡ width version }
{
    match version {
        Version::First => 3,
        Version::Second => 4,
    }
}

/// A field of a record, which is empty where there is none.
fn field(row: &ByteRecord, index: usize) -> &[u8]
    ensures { result.now ≡ field (fields_of row.now) index }
{
    match row.get(index) {
        Some(field) => field,
        None => &[],
    }
}

/// The person that a field names: the applicant's namesake where it is empty.
fn read_person(name: Name, text: &[u8]) -> Option<Name>
    ensures form { is_some result ≡ person_fits text.now }
    ensures value { IfSome result (λ person. person ≡ person_in name text.now) }
{
    if text.is_empty() {
        Some(name)
    } else {
        Name::read(text)
    }
}

/// The cluster that a field gives, or that it gives none. None where the field is not of its form.
fn read_cluster(are_drawn: bool, text: &[u8]) -> Option<Option<u32>>
    ensures form { is_some result ≡ cluster_fits are_drawn text.now }
    ensures value { IfSome result (λ cluster. cluster ≡ cluster_in text.now) }
{
    if text.is_empty() {
        return Some(None);
    }
    if are_drawn {
        return None;
    }
    match read_number(text, u64::from(MOST_CLUSTERS)) {
        Some(number) if number >= 1 => Some(Some(number as u32)),
        _ => None,
    }
}

/// Whether a text is a list of names with spaces between them.
fn are_conflicts(text: &[u8]) -> bool
    ensures { result ≡ are_conflicts text.now }
{
    !text.contains(&b'\t') && are_names(text)
}

/// Whether each word of a text is a name.
fn are_names(text: &[u8]) -> bool
    ensures { result ≡ list_all is_name (words text.now) }
{
    let mut rest = text;
    while let Some((word, after)) = next_word(rest) {
        if Name::read(word).is_none() {
            return false;
        }
        rest = after;
    }
    true
}
