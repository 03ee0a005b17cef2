//! The bytes of an input that were taken and wait for the end of their line.

ghost use Rattle.std.specs.Prelude.{◌≡◌, ◌≤◌, ◌-◌, IfOk, OnErr, length, take, drop};
ghost use Rattle.command_text.specs.Held.{HasNoFeed};
ghost use Rattle.house_io.specs.Faults.{Rose};
ghost use Rattle.intake_desk.specs.Input.{HasCome, uncut};

use command_text::{first_line_feed, without_return};
use house_io::{Failed, Source};
use intake_log::limits::MOST_LINE_BYTES;
use std::marker::Model;

/// How many bytes wait at most. A line of so many bytes without a line feed is too long, whatever comes behind them: one
/// byte less might be a line of the greatest length and a carriage return.
const MOST_WAITING: usize = MOST_LINE_BYTES + 2;

/// Bytes that were taken, and of which no line was made yet.
#[derive(Drop)]
pub(crate) struct Waiting {
    bytes: [u8; MOST_WAITING],
    from: usize,
    to: usize,
}

/// What an input gives next.
#[derive(Clone, Copy, Debug, PartialEq, Eq)]
pub(crate) enum Came {
    /// A line stands before this place of the bytes that wait: before a line feed, or, as the last, before the end.
    Line(usize, bool),
    /// A line that is too long, of which the end was not seen.
    Long,
    /// Nothing more.
    End,
}

impl Model for Waiting {
    ghost use Rattle.std.specs.Prelude.{◌≤◌, ◌-◌, ℕ, List, take, drop};
    ghost use Rattle.intake_desk.specs.declared.waiting.TheConstants.{MOST_WAITING};

    ghost Value = { List ℕ };

    ghost view = { λ w. take (w.to - w.from) (drop w.from w.bytes) };

    ghost invariant = { λ w. (w.from ≤ w.to) × (w.to ≤ MOST_WAITING) };
}

impl Waiting {
    ghost use Rattle.std.specs.Prelude.{◌≡◌, ◌≢◌, ◌<◌, ◌≤◌, ◌↔◌, ◌+◌, [], IsTrue, Ok, IfOk, OnErr, length, take, drop};
    ghost use Rattle.std.specs.Io.KnownBytes.{IsAtEnd};
    ghost use Rattle.command_text.specs.Held.{HasNoFeed};
    ghost use Rattle.house_io.specs.Faults.{Rose};
    ghost use Rattle.house_model.specs.Text.{without_return};
    ghost use Rattle.intake_desk.specs.Input.{uncut};
    ghost use Rattle.intake_desk.specs.declared.waiting.TheConstants.{MOST_WAITING};

    /// No bytes.
    pub(crate) fn new() -> Waiting
        ensures { result ≡ [] }
    {
        Waiting {
            bytes: [0; MOST_WAITING],
            from: 0,
            to: 0,
        }
    }

    /// The bytes.
    pub(crate) fn bytes(&self) -> &[u8]
        ensures same { result.now ≡ self.now }
        ensures few { length self.now ≤ MOST_WAITING }
    {
        &self.bytes[self.from..self.to]
    }

    /// The line before a place, without the carriage return that may end it.
    pub(crate) fn line(&self, end: usize) -> &[u8]
        requires { end ≤ length self.now }
        ensures { result.now ≡ without_return (take end self.now) }
    {
        without_return(&self.bytes()[..end])
    }

    /// Lets the first bytes go.
    pub(crate) fn skip(&mut self, count: usize)
        requires { count ≤ length self.old }
        ensures { self.new ≡ drop count self.old }
    {
        self.from += count;
    }

    /// Takes more bytes of an input, and answers how many.
    fn take_more<I: Source>(&mut self, input: &mut I) -> Result<usize, Failed>
        requires { length self.old < MOST_WAITING }
        ensures uncut { uncut self.new (I.left input.new) ≡ uncut self.old (I.left input.old) }
        ensures more { IfOk result (λ count. length self.new ≡ length self.old + count) }
        ensures at_end { result ≡ Ok 0 → (self.new ≡ self.old) × IsAtEnd (I.left input.new) }
        ensures untouched { OnErr result (self.new ≡ self.old) }
        ensures failed { OnErr result (Rose (I.faults input.old) (I.faults input.new)) }
        ensures never_falls { I.faults input.old ≤ I.faults input.new }
    {
        move_to_front(&mut self.bytes, self.from, self.to);
        self.to -= self.from;
        self.from = 0;
        match input.take(&mut self.bytes[self.to..]) {
            Ok(count) => {
                self.to += count;
                Ok(count)
            }
            Err(Failed) => Err(Failed),
        }
    }
}

/// Moves the bytes from one place to another to the front of a buffer.
fn move_to_front(bytes: &mut [u8; MOST_WAITING], from: usize, to: usize)
    requires order { from ≤ to }
    requires within { to ≤ MOST_WAITING }
    ensures { take (to - from) bytes.new ≡ take (to - from) (drop from bytes.old) }
{
    bytes.copy_within(from..to, 0);
}

/// Takes of an input until a line ends, is too long, or the input ends.
pub(crate) fn take_line<I: Source>(waiting: &mut Waiting, input: &mut I) -> Result<Came, Failed>
    ensures uncut { uncut waiting.new (I.left input.new) ≡ uncut waiting.old (I.left input.old) }
    ensures came { IfOk result (HasCome waiting.new (I.left input.new)) }
    ensures unfinished { OnErr result (HasNoFeed waiting.new) }
    ensures few { length waiting.new ≤ MOST_WAITING }
    ensures failed { OnErr result (Rose (I.faults input.old) (I.faults input.new)) }
    ensures never_falls { I.faults input.old ≤ I.faults input.new }
{
    loop {
        let bytes = waiting.bytes();
        let count = bytes.len();
        if let Some(end) = first_line_feed(bytes) {
            return Ok(Came::Line(end, false));
        }
        if count >= MOST_WAITING {
            return Ok(Came::Long);
        }
        match waiting.take_more(input) {
            Ok(0) => {
                return Ok(if count == 0 {
                    Came::End
                } else {
                    Came::Line(count, true)
                });
            }
            Ok(_) => {}
            Err(Failed) => return Err(Failed),
        }
    }
}
