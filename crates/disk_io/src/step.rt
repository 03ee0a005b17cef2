//! What a disk in memory records of its writes and syncs.

ghost use Rattle.std.specs.Prelude.{◌≡◌, get_or};
ghost use Rattle.disk_io.specs.Images.{OnDisk};
ghost use Rattle.disk_io.specs.Replay.{IsWithin, after_step};

use std::marker::Model;

/// The bytes of a write.
#[derive(Drop)]
pub struct Piece {
    bytes: Vec<u8>,
}

impl Model for Piece {
    ghost use Rattle.std.specs.Prelude.{ℕ, List};

    ghost Value = { List ℕ };

    ghost view = { λ piece. piece.bytes.items };
}

impl Piece {
    pub(crate) fn new(bytes: Vec<u8>) -> Piece
        ensures { result ≡ bytes.items }
    {
        Piece { bytes }
    }

    pub(crate) fn bytes(&self) -> &[u8]
        ensures { result.now ≡ self.now }
    {
        self.bytes.as_slice()
    }
}

/// A write or a sync that began, and whether it went well.
#[derive(Drop)]
pub enum Step {
    Write {
        at: u64,
        piece: Piece,
        is_done: bool,
    },
    Sync {
        is_done: bool,
    },
}

/// What the byte at a place reads after a step, where it read as given before.
pub(crate) fn byte_after(step: &Step, index: u64, before: u8) -> u8
    ensures { (disk : OnDisk) → IsWithin disk step.now → before ≡ get_or disk.seen index 0 →
        result ≡ get_or (after_step disk step.now).seen index 0 }
{
    match step {
        Step::Write {
            at,
            piece,
            is_done: true,
        } if *at <= index => piece
            .bytes()
            .get((index - *at) as usize)
            .copied()
            .unwrap_or(before),
        Step::Write { .. } | Step::Sync { .. } => before,
    }
}
