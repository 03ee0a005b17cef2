//! The reading of the words that follow a command.

ghost use Rattle.std.specs.Prelude.{◌≡◌, ◌≢◌, ◌≤◌, ◌^◌, ◌-◌, [], true, false, Ok, IfOk, IfErr, length, ◌==◌, ◌&&◌, ◌||◌, nat_le};
ghost use Rattle.std.specs.List.{list_all};
ghost use Rattle.hex.specs.Hex.{decode_of};
ghost use Rattle.house_base.specs.Name.{is_name};
ghost use Rattle.house_base.specs.Seed.{is_seed};
ghost use Rattle.house_model.specs.Faults.{is_within};
ghost use Rattle.house_model.specs.Said.{number};
ghost use Rattle.house_model.specs.Text.{words};
ghost use Rattle.house_model.specs.Verbs.{is_hex64};
ghost use Rattle.command_text.specs.Arguments.{ReadsAs};

use crate::words::{is_at_end, next_word, one_word, three_words, two_words};
use hex::FromHex;
use house_base::limits::{FEWEST_CLUSTERS, MOST_CLUSTERS, MOST_REVIEWS, MOST_SEATS};
use house_base::{Call, Name, Reason, Seed, read_number};
use house_model::{Command, Verb};

/// Reads the words that follow a command. An error is the first of form, name and range that fits.
pub fn read_command(verb: Verb, rest: &[u8]) -> Result<Command, Reason>
    ensures { ReadsAs verb (words rest.now) result }
{
    match verb {
        Verb::Call => read_call(rest),
        Verb::Applicant => read_applicant(rest),
        Verb::Conflict => read_conflict(rest),
        Verb::Place => read_place(rest),
        Verb::Partition => read_partition(rest),
        Verb::Pair => read_pair(rest),
        Verb::Seal => read_seal(rest),
        Verb::Assign => read_bare(rest, Command::Assign),
        Verb::Close => read_bare(rest, Command::Close),
        Verb::Draw => read_draw(rest),
        Verb::Lottery => read_lottery(rest),
        Verb::Other => Err(Reason::Form),
    }
}

fn read_call(rest: &[u8]) -> Result<Command, Reason>
    ensures { ReadsAs Verb.Call (words rest.now) result }
{
    let (seats, clusters, reviews) = three_words(rest).ok_or(Reason::Form)?;
    let seats = read_within(seats, 1, MOST_SEATS)?;
    let clusters = read_within(clusters, FEWEST_CLUSTERS, MOST_CLUSTERS)?;
    let reviews = read_within(reviews, 1, MOST_REVIEWS)?;
    Ok(Command::Call(Call {
        seats,
        clusters,
        reviews,
    }))
}

fn read_applicant(rest: &[u8]) -> Result<Command, Reason>
    ensures { ReadsAs Verb.Applicant (words rest.now) result }
{
    let (name, rest) = next_word(rest).ok_or(Reason::Form)?;
    if is_at_end(rest) {
        let name = read_name(name)?;
        return Ok(Command::Applicant(name, name));
    }
    let person = one_word(rest).ok_or(Reason::Form)?;
    Ok(Command::Applicant(read_name(name)?, read_name(person)?))
}

fn read_conflict(rest: &[u8]) -> Result<Command, Reason>
    ensures { ReadsAs Verb.Conflict (words rest.now) result }
{
    let (person, proposal) = two_words(rest).ok_or(Reason::Form)?;
    Ok(Command::Conflict(read_name(person)?, read_name(proposal)?))
}

fn read_place(rest: &[u8]) -> Result<Command, Reason>
    ensures { ReadsAs Verb.Place (words rest.now) result }
{
    let (person, cluster) = two_words(rest).ok_or(Reason::Form)?;
    let person = read_name(person)?;
    Ok(Command::Place(person, read_within(cluster, 1, MOST_CLUSTERS)?))
}

fn read_partition(rest: &[u8]) -> Result<Command, Reason>
    ensures { ReadsAs Verb.Partition (words rest.now) result }
{
    let seed = one_word(rest).ok_or(Reason::Form)?;
    Ok(Command::Partition(read_seed(seed)?))
}

fn read_pair(rest: &[u8]) -> Result<Command, Reason>
    ensures { ReadsAs Verb.Pair (words rest.now) result }
{
    let (person, proposal) = two_words(rest).ok_or(Reason::Form)?;
    Ok(Command::Pair(read_name(person)?, read_name(proposal)?))
}

fn read_seal(rest: &[u8]) -> Result<Command, Reason>
    ensures { ReadsAs Verb.Seal (words rest.now) result }
{
    let digest = one_word(rest).ok_or(Reason::Form)?;
    Ok(Command::Seal(read_digest(digest)?))
}

fn read_draw(rest: &[u8]) -> Result<Command, Reason>
    ensures { ReadsAs Verb.Draw (words rest.now) result }
{
    let number = one_word(rest).ok_or(Reason::Form)?;
    Ok(Command::Draw(read_any_number(number)?))
}

fn read_lottery(rest: &[u8]) -> Result<Command, Reason>
    ensures { ReadsAs Verb.Lottery (words rest.now) result }
{
    let seed = one_word(rest).ok_or(Reason::Form)?;
    Ok(Command::Lottery(read_seed(seed)?))
}

/// A command that has no words of its own.
fn read_bare(rest: &[u8], command: Command) -> Result<Command, Reason>
    ensures ok { IfOk result (λ read. (read ≡ command) × (words rest.now ≡ [])) }
    ensures err { IfErr result (λ reason. (reason ≡ Reason.Form) × (words rest.now ≢ [])) }
{
    if is_at_end(rest) {
        Ok(command)
    } else {
        Err(Reason::Form)
    }
}

/// A word that is to be a name.
fn read_name(word: &[u8]) -> Result<Name, Reason>
    ensures ok { IfOk result (λ name. (name ≡ word.now) × (is_name word.now ≡ true)) }
    ensures err { IfErr result (λ reason. (reason ≡ Reason.Name) × (is_name word.now ≡ false)) }
{
    Name::read(word).ok_or(Reason::Name)
}

/// A word that is to be a seed.
fn read_seed(word: &[u8]) -> Result<Seed, Reason>
    ensures ok { IfOk result (λ seed. (seed ≡ word.now) × (is_seed word.now ≡ true)) }
    ensures err { IfErr result (λ reason. (reason ≡ Reason.Name) × (is_seed word.now ≡ false)) }
{
    Seed::read(word).ok_or(Reason::Name)
}

/// A word that is to be a number within bounds.
fn read_within(word: &[u8], low: u32, high: u32) -> Result<u32, Reason>
    ensures ok { IfOk result (λ n.
        (n ≡ number word.now) × (low ≤ n) × (n ≤ high) × (is_within low high word.now ≡ true)) }
    ensures err { IfErr result (λ reason. (reason ≡ Reason.Range) × (is_within low high word.now ≡ false)) }
{
    let Some(number) = read_number(word, u64::from(high)) else {
        return Err(Reason::Range);
    };
    if number < u64::from(low) {
        return Err(Reason::Range);
    }
    Ok(number as u32)
}

/// A word that is to be a number of 64 bits.
#[tactic(auto, unfolding(house_model::specs::Said::number, house_model::specs::Faults::is_within))]
fn read_any_number(word: &[u8]) -> Result<u64, Reason>
    ensures ok { IfOk result (λ n. (n ≡ number word.now) × (is_within 0 (2 ^ 64 - 1) word.now ≡ true)) }
    ensures err { IfErr result (λ reason.
        (reason ≡ Reason.Range) × (is_within 0 (2 ^ 64 - 1) word.now ≡ false)) }
{
    match read_number(word, u64::MAX) {
        Some(number) => Ok(number),
        None => Err(Reason::Range),
    }
}

/// A word that is to be a digest in hexadecimal, in small letters.
pub fn read_digest(word: &[u8]) -> Result<[u8; 32], Reason>
    ensures ok { IfOk result (λ digest. (decode_of word.now ≡ Ok digest) × (is_hex64 word.now ≡ true)) }
    ensures err { IfErr result (λ reason. (reason ≡ Reason.Form) × (is_hex64 word.now ≡ false)) }
{
    if !is_hex64(word) {
        return Err(Reason::Form);
    }
    <[u8; 32] as FromHex>::from_hex(word).map_err(|_| Reason::Form)
}

/// Whether a word is 64 digits of `0-9` and `a-f`.
#[tactic(auto, unfolding(house_model::specs::Verbs::is_hex64))]
fn is_hex64(word: &[u8]) -> bool
    ensures { result ≡ is_hex64 word.now }
{
    word.len() == 64 && has_only_small_digits(word)
}

fn has_only_small_digits(word: &[u8]) -> bool
    ensures { result ≡ list_all (λ b. (nat_le 48 b && nat_le b 57) || (nat_le 97 b && nat_le b 102)) word.now }
{
    word.iter().all(|byte| is_small_digit(*byte))
}

/// Whether a byte is a hexadecimal digit and no capital.
fn is_small_digit(byte: u8) -> bool
    ensures { result ≡ ((nat_le 48 byte && nat_le byte 57) || (nat_le 97 byte && nat_le byte 102)) }
{
    byte.is_ascii_digit() || matches!(byte, b'a'..=b'f')
}
