//! The lines of a text that comes in pieces.

use crate::cutting::{first_line_feed, without_return};
use house_base::Memory;
use std::alloc::Global;
use std::marker::Model;
use std::mem;

/// What a feed came to.
#[derive(Clone, Copy, Debug, PartialEq, Eq)]
pub struct Fed {
    /// How many bytes of the piece were used.
    pub used: usize,
    /// Whether a line ended.
    pub whole: bool,
}

/// Takes a text in pieces, and gives its lines as they end.
#[derive(Drop)]
pub struct Cutter {
    /// What was fed since the last line feed.
    begun: Vec<u8>,
    /// What the last feed ended, if it ended a line.
    line: Vec<u8>,
    whole: bool,
}

impl Model for Cutter {
    ghost use Rattle.std.specs.Prelude.{Some, None, if◌then◌else◌};
    ghost use Rattle.command_text.specs.Cutting.{Cutting};
    ghost use Rattle.command_text.specs.Held.{HasNoFeed};

    ghost Value = { Cutting };

    ghost view = { λ c. record { begun = c.begun.items; ended = if c.whole then Some c.line.items else None } };

    ghost invariant = { λ c. HasNoFeed c.begun.items × HasNoFeed c.line.items };
}

impl Cutter {
    ghost use Rattle.std.specs.Prelude.{◌≡◌, [], IfOk, IfSome, IfNone, OnErr, option_copied};
    ghost use Rattle.command_text.specs.Held.{HasNoFeed};
    ghost use Rattle.command_text.specs.Cutting.{Feeds, IsWholeLine, fresh, ended_line, rest_of};

    /// Nothing was fed.
    pub fn new(alloc: Global) -> Cutter
        ensures { result ≡ fresh }
    {
        Cutter {
            begun: Vec::new(alloc),
            line: Vec::new(alloc),
            whole: false,
        }
    }

    /// The line that a feed of a piece would end, without its line end, and how many bytes of the piece it would use. It
    /// is told only of a line that has not begun before the piece, which can be read where it stands: none of it has to
    /// be fed.
    pub fn whole_line<'a>(&self, piece: &'a [u8]) -> Option<(&'a [u8], usize)>
        ensures found { IfSome result (λ found. IsWholeLine self.now piece.now found.1 found.0.now) }
        ensures no_line_feed { IfSome result (λ found. HasNoFeed found.0.now) }
        ensures none { IfNone result (self.now.begun ≡ [] → HasNoFeed piece.now) }
    {
        if !self.begun.is_empty() {
            return None;
        }
        match first_line_feed(piece) {
            Some(end) => Some((without_return(&piece[..end]), end + 1)),
            None => None,
        }
    }

    /// Uses a piece up to and with its first line feed, and then a line has ended; or all of it, where it has
    /// none. After an error nothing has changed.
    pub fn feed(&mut self, piece: &[u8]) -> Result<Fed, Memory>
        ensures ok { IfOk result (λ fed. Feeds self.old piece.now fed.used fed.whole self.new) }
        ensures err { OnErr result (self.new ≡ self.old) }
    {
        match first_line_feed(piece) {
            Some(end) => {
                self.begun.extend_from_slice(&piece[..end])?;
                mem::swap(&mut self.begun, &mut self.line);
                self.begun.clear();
                self.whole = true;
                Ok(Fed {
                    used: end + 1,
                    whole: true,
                })
            }
            None => {
                self.begun.extend_from_slice(piece)?;
                self.whole = false;
                Ok(Fed {
                    used: piece.len(),
                    whole: false,
                })
            }
        }
    }

    /// The line that the last feed ended, without its line end. None where it ended none.
    pub fn line(&self) -> Option<&[u8]>
        ensures ended { option_copied result ≡ ended_line self.now }
        ensures no_line_feed { IfSome result (λ line. HasNoFeed line.now) }
    {
        if self.whole {
            Some(without_return(&self.line))
        } else {
            None
        }
    }

    /// What was fed since the last line feed, without a carriage return at its end. None where nothing was.
    pub fn rest(&self) -> Option<&[u8]>
        ensures rest { option_copied result ≡ rest_of self.now }
        ensures no_line_feed { IfSome result (λ rest. HasNoFeed rest.now) }
    {
        if self.begun.is_empty() {
            None
        } else {
            Some(without_return(&self.begun))
        }
    }
}
