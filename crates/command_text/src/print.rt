//! The line of a command.

ghost use Rattle.std.specs.Prelude.{◌≡◌, ◌++◌, ◌∷◌, [], ◌<◌, ◌^◌, IsTrue, OnOk, OnErr, length};
ghost use Rattle.hex.specs.Hex.{IsBytes};
ghost use Rattle.house_base.specs.Name.{is_name};
ghost use Rattle.house_base.specs.Seed.{is_seed};
ghost use Rattle.house_model.specs.Report.{line_of};
ghost use Rattle.house_model.specs.declared.command.Command.TheVariants as command;
ghost use Rattle.command_text.specs.Held.{HasNoFeed};
ghost use Rattle.command_text.specs.Printing.{IsFormed, IsInBounds, command_line, command_words};
ghost use Rattle.command_text.specs.Reading.{ReadsOnlyAs};

use crate::line::Line;
use house_base::{Call, Memory, Name, Seed};
use house_model::Command;
use line_text::Word::{Number, Text};
use line_text::push_line;
use std::alloc::Global;

/// Appends the line of a command: its words with one space between them, and a line feed. After an error the
/// text is as before.
pub fn print_command(alloc: Global, command: &Command, out: &mut Vec<u8>) -> Result<(), Memory>
    ensures ok { OnOk result (out.new.items ≡ out.old.items ++ command_line command.now ++ 10 ∷ []) }
    ensures err { OnErr result (out.new.items ≡ out.old.items) }
    ensures reads_back { IsInBounds command.now → ReadsOnlyAs (command_line command.now) (Line.House command.now) }
    ensures one_line { HasNoFeed (command_line command.now) }
{
    push_command(alloc, command, out)
}

/// Appends the line of a command.
fn push_command(alloc: Global, command: &Command, out: &mut Vec<u8>) -> Result<(), Memory>
    ensures ok { OnOk result (out.new.items ≡ out.old.items ++ line_of (command_words command.now)) }
    ensures err { OnErr result (out.new.items ≡ out.old.items) }
    ensures formed { IsFormed command.now }
{
    match command {
        Command::Call(call) => push_call(alloc, call, out),
        Command::Applicant(name, person) => push_applicant(alloc, name, person, out),
        Command::Conflict(person, proposal) => push_names(
            alloc,
            b"conflict",
            person,
            proposal,
            out,
        ),
        Command::Place(person, cluster) => push_place(alloc, person, *cluster, out),
        Command::Partition(seed) => push_seed(alloc, b"partition", seed, out),
        Command::Pair(person, proposal) => push_names(alloc, b"pair", person, proposal, out),
        Command::Seal(digest) => push_seal(alloc, digest, out),
        Command::Assign => push_line(alloc, &[Text(b"assign")], out),
        Command::Close => push_line(alloc, &[Text(b"close")], out),
        Command::Draw(number) => push_draw(alloc, *number, out),
        Command::Lottery(seed) => push_seed(alloc, b"lottery", seed, out),
    }
}

fn push_call(alloc: Global, call: &Call, out: &mut Vec<u8>) -> Result<(), Memory>
    ensures ok { OnOk result (out.new.items ≡ out.old.items ++ line_of (command_words (command.Call call.now))) }
    ensures err { OnErr result (out.new.items ≡ out.old.items) }
{
    let seats = Number(u64::from(call.seats));
    let clusters = Number(u64::from(call.clusters));
    let reviews = Number(u64::from(call.reviews));
    push_line(alloc, &[Text(b"call"), seats, clusters, reviews], out)
}

/// Appends an applicant's line; its person is left out where it has the applicant's name.
fn push_applicant(
    alloc: Global,
    name: &Name,
    person: &Name,
    out: &mut Vec<u8>,
) -> Result<(), Memory>
    ensures ok { OnOk result (out.new.items ≡
        out.old.items ++ line_of (command_words (command.Applicant name.now person.now))) }
    ensures err { OnErr result (out.new.items ≡ out.old.items) }
    ensures name_is_formed { IsTrue (is_name name.now) }
    ensures person_is_formed { IsTrue (is_name person.now) }
{
    if name == person {
        push_line(alloc, &[Text(b"applicant"), Text(name.bytes())], out)
    } else {
        push_names(alloc, b"applicant", name, person, out)
    }
}

fn push_names(
    alloc: Global,
    verb: &[u8],
    first: &Name,
    second: &Name,
    out: &mut Vec<u8>,
) -> Result<(), Memory>
    ensures ok { OnOk result (out.new.items ≡
        out.old.items ++ line_of (verb.now ∷ first.now ∷ second.now ∷ [])) }
    ensures err { OnErr result (out.new.items ≡ out.old.items) }
    ensures first_is_formed { IsTrue (is_name first.now) }
    ensures second_is_formed { IsTrue (is_name second.now) }
{
    push_line(
        alloc,
        &[Text(verb), Text(first.bytes()), Text(second.bytes())],
        out,
    )
}

fn push_place(alloc: Global, person: &Name, cluster: u32, out: &mut Vec<u8>) -> Result<(), Memory>
    ensures ok { OnOk result (out.new.items ≡
        out.old.items ++ line_of (command_words (command.Place person.now cluster))) }
    ensures err { OnErr result (out.new.items ≡ out.old.items) }
    ensures person_is_formed { IsTrue (is_name person.now) }
{
    let cluster = Number(u64::from(cluster));
    push_line(alloc, &[Text(b"place"), Text(person.bytes()), cluster], out)
}

fn push_seed(alloc: Global, verb: &[u8], seed: &Seed, out: &mut Vec<u8>) -> Result<(), Memory>
    ensures ok { OnOk result (out.new.items ≡ out.old.items ++ line_of (verb.now ∷ seed.now ∷ [])) }
    ensures err { OnErr result (out.new.items ≡ out.old.items) }
    ensures seed_is_formed { IsTrue (is_seed seed.now) }
{
    push_line(alloc, &[Text(verb), Text(seed.bytes())], out)
}

fn push_seal(alloc: Global, digest: &[u8; 32], out: &mut Vec<u8>) -> Result<(), Memory>
    ensures ok { OnOk result (out.new.items ≡ out.old.items ++ line_of (command_words (command.Seal digest.now))) }
    ensures err { OnErr result (out.new.items ≡ out.old.items) }
    ensures whole { length digest.now ≡ 32 }
    ensures bytes { IsBytes digest.now }
{
    let digits = hex::encode(alloc, digest.as_slice())?;
    push_line(alloc, &[Text(b"seal"), Text(digits.as_bytes())], out)
}

fn push_draw(alloc: Global, number: u64, out: &mut Vec<u8>) -> Result<(), Memory>
    ensures ok { OnOk result (out.new.items ≡ out.old.items ++ line_of (command_words (command.Draw number))) }
    ensures err { OnErr result (out.new.items ≡ out.old.items) }
    ensures fits { number < 2 ^ 64 }
{
    push_line(alloc, &[Text(b"draw"), Number(number)], out)
}
