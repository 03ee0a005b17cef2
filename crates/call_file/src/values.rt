//! What stands under a key of a table.

ghost use Rattle.std.specs.Prelude.{◌≡◌, is_some, option_map, option_and_then};
ghost use Rattle.toml.specs.Data.{as_integer, get_member};
ghost use Rattle.toml.specs.View.{table_view};
ghost use Rattle.call_file.specs.Keys.{has_strange_key, number_within, text_under, value_at};

use crate::Key;
use crate::key::is_named;
use toml::Table;

/// The whole number under a key, where it is one within bounds.
pub(crate) fn number_at(table: &Table, key: Key, low: u32, high: u32) -> Option<u32>
    ensures { result ≡ number_within low high (value_at (table_view table.now) key) }
{
    let number = match integer_at(table, key.word()) {
        Some(number) => u32::try_from(number).ok()?,
        None => return None,
    };
    if low <= number && number <= high {
        Some(number)
    } else {
        None
    }
}

/// The text under a key, or that the key is missing. None where a value that is no text stands there.
pub(crate) fn text_at<'a>(table: &'a Table, key: Key) -> Option<Option<&'a str>>
    ensures { option_map (λ text. option_map (λ t. t.now) text) result
        ≡ text_under (value_at (table_view table.now) key) }
{
    match table.get(key.word()) {
        None => Some(None),
        Some(value) => match value.as_str() {
            None => None,
            Some(text) => Some(Some(text)),
        },
    }
}

/// Whether the table has the key.
pub(crate) fn has_key(table: &Table, key: Key) -> bool
    ensures { result ≡ is_some (value_at (table_view table.now) key) }
{
    match table.get(key.word()) {
        Some(_) => true,
        None => false,
    }
}

/// Whether the table has a key without a meaning.
pub(crate) fn has_strange_key(table: &Table) -> bool
    ensures { result ≡ has_strange_key (table_view table.now) }
{
    for word in table.keys() {
        if !is_named(word.as_str()) {
            return true;
        }
    }
    false
}

fn integer_at(table: &Table, key: &str) -> Option<i64>
    ensures { result ≡ option_and_then as_integer (get_member key.now (table_view table.now)) }
{
    match table.get(key) {
        Some(value) => value.as_integer(),
        None => None,
    }
}
