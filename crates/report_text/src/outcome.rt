//! The parts of an outcome.

ghost use Rattle.std.specs.Prelude.{◌≡◌};

use house_base::{Asides, Call};
use house_model::{ApplicantRow, ClusterRow};
use std::marker::Model;

/// The outcome of a call at a draw: the clusters in rising number, the applicants in register order. The running of
/// a call makes it; who writes a report or an audit reads it.
#[derive(Drop)]
pub struct Outcome {
    call: Call,
    asides: Asides,
    draw: u64,
    den: u64,
    persons: u32,
    clusters: Vec<ClusterRow>,
    applicants: Vec<ApplicantRow>,
    empty: u64,
}

impl Model for Outcome {
    ghost use Rattle.house_model.specs.Report.{OutcomeParts};

    ghost Value = { OutcomeParts };

    ghost view = { λ o. record {
      seats = o.call.seats;
      clusters = o.call.clusters;
      reviews = o.call.reviews;
      asides = o.asides;
      draw = o.draw;
      den = o.den;
      persons = o.persons;
      cluster_rows = o.clusters.items;
      applicant_rows = o.applicants.items;
      empty = o.empty;
    } };
}

impl Outcome {
    /// The outcome of these parts.
    pub fn make(
        call: Call,
        asides: Asides,
        draw: u64,
        den: u64,
        persons: u32,
        clusters: Vec<ClusterRow>,
        applicants: Vec<ApplicantRow>,
        empty: u64,
    ) -> Outcome
        ensures { result ≡ record {
          seats = call.seats;
          clusters = call.clusters;
          reviews = call.reviews;
          asides = asides;
          draw = draw;
          den = den;
          persons = persons;
          cluster_rows = clusters.items;
          applicant_rows = applicants.items;
          empty = empty;
        } }
    {
        Outcome {
            call,
            asides,
            draw,
            den,
            persons,
            clusters,
            applicants,
            empty,
        }
    }

    /// What the call gives out.
    pub fn call(&self) -> Call
        ensures seats { result.seats ≡ self.now.seats }
        ensures clusters { result.clusters ≡ self.now.clusters }
        ensures reviews { result.reviews ≡ self.now.reviews }
    {
        self.call
    }

    /// How many review lines were set aside.
    pub fn asides(&self) -> Asides
        ensures { result ≡ self.now.asides }
    {
        self.asides
    }

    /// The draw, below the denominator.
    pub fn draw(&self) -> u64
        ensures { result ≡ self.now.draw }
    {
        self.draw
    }

    /// The common denominator of the quotas and the chances.
    pub fn den(&self) -> u64
        ensures { result ≡ self.now.den }
    {
        self.den
    }

    /// How many persons there are.
    pub fn persons(&self) -> u32
        ensures { result ≡ self.now.persons }
    {
        self.persons
    }

    /// The clusters, in rising number.
    pub fn clusters(&self) -> &[ClusterRow]
        ensures { result.now ≡ self.now.cluster_rows }
    {
        &self.clusters
    }

    /// The applicants, in register order.
    pub fn applicants(&self) -> &[ApplicantRow]
        ensures { result.now ≡ self.now.applicant_rows }
    {
        &self.applicants
    }

    /// The seats that stay empty.
    pub fn empty(&self) -> u64
        ensures { result ≡ self.now.empty }
    {
        self.empty
    }
}
