//! The trial file.

ghost use Rattle.std.specs.Prelude.{◌≡◌, ◌++◌, ◌<◌, ◌≤◌, ◌^◌, IfOk, OnOk};
ghost use Rattle.house_base.specs.declared.limits.TheConstants.{MOST_APPLICANTS};
ghost use Rattle.house_model.specs.Report.{line_of};
ghost use Rattle.trial_file.specs.Stream.{key_words};
ghost use Rattle.trial_file.specs.Trial.{IsTrial, call_row, draw_row, made_file};

use crate::names::trial_names;
use crate::reviews::push_reviews;
use crate::rows::{push_applicants, push_places};
use crate::stream::{generator_of, next_word};
use house_base::Memory;
use house_base::limits::DOLLAR;
use line_text::Word::{Number, Text};
use line_text::push_line;
use rand_chacha::ChaCha8Rng;
use std::alloc::Global;

/// The trial file of a seed, for so many applicants, clusters, reviews of each, and seats: its points and its draw come from
/// the ChaCha8 generator of the seed.
pub fn made_file(
    alloc: Global,
    seed: u64,
    applicants: u32,
    clusters: u32,
    reviews: u32,
    seats: u32,
) -> Result<Vec<u8>, Memory>
    requires { IsTrial applicants clusters reviews seats }
    ensures { IfOk result (λ file. file.items ≡ made_file seed applicants clusters reviews seats) }
{
    let names = trial_names(alloc, applicants)?;
    let mut generator = generator_of(seed);
    let mut text = Vec::new(alloc);
    push_call(alloc, clusters, reviews, seats, &mut text)?;
    push_applicants(alloc, &names, &mut text)?;
    push_places(alloc, &names, clusters, &mut text)?;
    push_line(alloc, &[Text(b"assign")], &mut text)?;
    push_reviews(alloc, &names, reviews, &mut generator, &mut text)?;
    push_line(alloc, &[Text(b"close")], &mut text)?;
    push_draw(alloc, applicants, &mut generator, &mut text)?;
    Ok(text)
}

/// Appends the call's line.
fn push_call(
    alloc: Global,
    clusters: u32,
    reviews: u32,
    seats: u32,
    out: &mut Vec<u8>,
) -> Result<(), Memory>
    ensures { OnOk result (out.new.items ≡ out.old.items ++ line_of (call_row clusters reviews seats)) }
{
    let seats = Number(u64::from(seats));
    let clusters = Number(u64::from(clusters));
    let reviews = Number(u64::from(reviews));
    push_line(alloc, &[Text(b"call"), seats, clusters, reviews], out)
}

/// Appends the line of the draw, which the next two words of a generator give.
fn push_draw(
    alloc: Global,
    applicants: u32,
    generator: &mut ChaCha8Rng,
    out: &mut Vec<u8>,
) -> Result<(), Memory>
    requires some { (1 ≤ applicants) × (applicants ≤ MOST_APPLICANTS) }
    requires stream { generator.old.stream ≡ 0 }
    requires bound { generator.old.word_pos < 2 ^ 32 }
    ensures { OnOk result (out.new.items ≡
        out.old.items ++ line_of (draw_row (key_words generator.old.key) applicants generator.old.word_pos)) }
{
    let high = u64::from(next_word(generator));
    let low = u64::from(next_word(generator));
    let draw = (high * 4_294_967_296 + low) % (u64::from(applicants) * u64::from(DOLLAR));
    push_line(alloc, &[Text(b"draw"), Number(draw)], out)
}
