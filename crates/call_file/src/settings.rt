//! What a call file says.

ghost use Rattle.std.specs.Prelude.{◌≡◌, None, Some, is_some, option_map, IfOk, IfErr, IfSome};
ghost use Rattle.toml.specs.View.{table_view};
ghost use Rattle.call_file.specs.Keys.{bad_key, digest_in, key_fits, said_by, said_in, text_of, version_of};

use crate::Key;
use crate::values::{has_key, has_strange_key, number_at, text_at};
use command_text::read_digest;
use house_base::limits::{FEWEST_CLUSTERS, MOST_CLUSTERS, MOST_REVIEWS, MOST_SEATS};
use house_base::{Call, Seed};
use toml::Table;

/// The form of a register's records.
#[derive(Clone, Copy, Debug, PartialEq, Eq)]
pub enum Version {
    /// Each applicant is a person of its own.
    First,
    /// A record names the person to whom its applicant belongs.
    Second,
}

/// What a call file says.
#[derive(Drop)]
pub(crate) struct Settings {
    pub(crate) version: Version,
    pub(crate) call: Call,
    /// The seed from which the clusters are drawn, where they are.
    pub(crate) partition: Option<Seed>,
    /// The digest to which the lottery has to keep, where there is one.
    pub(crate) seal: Option<[u8; 32]>,
}

/// Reads the table of a call file. An error is the first key that is not as it has to be.
#[tactic(auto, unfolding(crate::specs::Keys::bad_key, crate::specs::Keys::said_in))]
pub(crate) fn read_settings(table: &Table) -> Result<Settings, Key>
    ensures ok { IfOk result (λ settings. (bad_key (table_view table.now) ≡ None)
        × (said_by settings ≡ said_in (table_view table.now))) }
    ensures bad { IfErr result (λ key. bad_key (table_view table.now) ≡ Some key) }
{
    let version = read_version(table).ok_or(Key::Version)?;
    let seats = number_at(table, Key::Seats, 1, MOST_SEATS).ok_or(Key::Seats)?;
    let clusters = number_at(table, Key::Clusters, FEWEST_CLUSTERS, MOST_CLUSTERS).ok_or(
        Key::Clusters,
    )?;
    let reviews = number_at(table, Key::Reviews, 1, MOST_REVIEWS).ok_or(Key::Reviews)?;
    let partition = read_partition(table).ok_or(Key::Partition)?;
    let seal = read_seal(table).ok_or(Key::Seal)?;
    if has_strange_key(table) {
        return Err(Key::Other);
    }
    Ok(Settings {
        version,
        call: Call {
            seats,
            clusters,
            reviews,
        },
        partition,
        seal,
    })
}

/// The version, which is the first where nothing names one.
fn read_version(table: &Table) -> Option<Version>
    ensures form { is_some result ≡ key_fits (table_view table.now) Key.Version }
    ensures value { IfSome result (λ version. version ≡ version_of (table_view table.now)) }
{
    if !has_key(table, Key::Version) {
        return Some(Version::First);
    }
    match number_at(table, Key::Version, 1, 2) {
        Some(2) => Some(Version::Second),
        Some(_) => Some(Version::First),
        None => None,
    }
}

/// The seed under its key, or that the key is missing. None where something else stands there.
fn read_partition(table: &Table) -> Option<Option<Seed>>
    ensures form { is_some result ≡ key_fits (table_view table.now) Key.Partition }
    ensures value { IfSome result (λ seed. seed ≡ text_of (table_view table.now) Key.Partition) }
{
    match text_at(table, Key::Partition) {
        None => None,
        Some(None) => Some(None),
        Some(Some(text)) => match Seed::read(text.as_bytes()) {
            None => None,
            Some(seed) => Some(Some(seed)),
        },
    }
}

/// The digest under its key, or that the key is missing. None where something else stands there.
fn read_seal(table: &Table) -> Option<Option<[u8; 32]>>
    ensures form { is_some result ≡ key_fits (table_view table.now) Key.Seal }
    ensures value { IfSome result (λ digest. digest ≡ option_map digest_in (text_of (table_view table.now) Key.Seal)) }
{
    match text_at(table, Key::Seal) {
        None => None,
        Some(None) => Some(None),
        Some(Some(text)) => match read_digest(text.as_bytes()) {
            Ok(digest) => Some(Some(digest)),
            Err(_) => None,
        },
    }
}
