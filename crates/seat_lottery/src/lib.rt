//! The seats that the lottery gives a cluster at a draw, and the draw that a seed gives.

#![tactic(auto)]

ghost use Rattle.std.specs.Prelude.{◌≡◌, ◌+◌, ◌^◌, ◌<◌, ◌≤◌};
ghost use Rattle.peer_selection.specs.Laws.{IsRounded};
ghost use Rattle.peer_selection.specs.Marks.{marks};

pub mod seed;

pub use seed::{draw_of, is_sealed_by, seal_of};

/// The seats of a cluster at a draw, as in Madow's systematic sampling: how many marks, which stand at the draw and
/// every `den` further on, lie in the stretch of the line that begins at `before` and has this width. For a cluster
/// these are the quotas of those before it, and its own.
pub fn seats(before: u64, width: u64, den: u64, draw: u64) -> u64
    requires den { 1 ≤ den }
    requires draw { draw < den }
    requires end { before + width < 2 ^ 63 }
    ensures counted { result ≡ marks before width den draw }
    ensures rounded { IsRounded result width den }
{
    marks_below(before + width, den, draw) - marks_below(before, den, draw)
}

/// How many marks stand below the end.
fn marks_below(end: u64, den: u64, draw: u64) -> u64
    requires { draw < den }
    ensures { result ≡ marks 0 end den draw }
{
    end.saturating_sub(draw).div_ceil(den)
}

#[cfg(test)]
mod tests;
