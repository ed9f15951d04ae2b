//! What a search answers, and the records that it works in.
ghost use Rattle.std.specs.Prelude.{[], ◌∷◌};
ghost use Rattle.engine.specs.Kinds.{ByBound};
ghost use Rattle.queue.proofs.Orders.{lex_reflexive, lex_transitive, lex_total};
ghost use Rattle.std.proofs.Common.{rules};

use aggregate::Weighted;
use queue::rank::Ranked;

/// What is asked of the slots: a weight for each channel, how the weighted distances are aggregated, how many neighbours are wanted, how
/// far away at most, and how many channels may be measured.
#[derive_where(Clone, Copy)]
pub struct Question<'a, A> {
    pub weights: &'a [u8],
    pub aggregate: &'a A,
    pub k: usize,
    pub radius: u32,
    pub budget: u32,
}

/// A hit: an accession number and its aggregated distance.
#[derive(Clone, Copy, PartialEq, Eq, Debug)]
pub struct Neighbor {
    pub accession: u16,
    pub distance: Weighted,
}

impl Neighbor {
    /// What stands in a list of hits before there are any.
    pub const BLANK: Neighbor = Neighbor {
        accession: 0,
        distance: 0,
    };
}

/// What a search comes to: whether it is complete, and how many patches it named, channels it measured and patches it admitted.
#[derive(Clone, Copy, PartialEq, Eq, Debug)]
pub struct Answer {
    // A flag: callers print it as a number, and an enum of two would say no more.
    pub complete: bool,
    pub named: u16,
    pub measured: u32,
    pub admitted: u16,
}

/// An admitted patch that is not named yet: its bound and accession number, by which it is ordered; its slot; the order of its channels;
/// its weighted numbers; and how many of its channels are measured. The one odd byte stands last, so that the rest is copied in aligned
/// parts.
#[derive(Clone, Copy, PartialEq, Eq, Debug)]
pub struct Candidate {
    pub bound: Weighted,
    pub accession: u16,
    pub slot: u16,
    pub order: [u8; 8],
    pub entries: [Weighted; 8],
    pub measured: u8,
}

impl Candidate {
    /// What the scratch is left with.
    pub const BLANK: Candidate = Candidate {
        bound: 0,
        accession: 0,
        slot: 0,
        order: [0; 8],
        entries: [0; 8],
        measured: 0,
    };
}

/// By bound, and equal bounds by accession number.
impl Ranked for Candidate {
    ghost before = { ByBound };

    ghost key = { λ x. x.bound ∷ (x.accession ∷ []) };

    ghost reflexive = { λ x. lex_reflexive x.bound x.accession };

    ghost transitive = { λ x y z. lex_transitive x.bound y.bound z.bound x.accession y.accession z.accession };

    ghost total = { λ x y. lex_total x.bound y.bound x.accession y.accession };

    ghost antisymmetric = { Prim.search rules };

    ghost keyed = { Prim.search rules };

    fn precedes(&self, other: &Self) -> bool {
        (self.bound, self.accession) <= (other.bound, other.accession)
    }
}

/// How far a search has come: how many patches are named, and how many channels are measured.
#[derive(Clone, Copy, PartialEq, Eq, Debug)]
pub struct Progress {
    pub named: usize,
    pub measured: u32,
}

/// How a search ends: with nothing left to name, or with the budget spent.
#[derive(Clone, Copy, PartialEq, Eq, Debug)]
pub enum End {
    Finished,
    Stopped,
}

/// What is to be done with the least candidate.
#[derive(Clone, Copy, PartialEq, Eq, Debug)]
pub enum Turn {
    Finish,
    Name,
    Stop,
    Measure,
}
