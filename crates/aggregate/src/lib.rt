//! Aggregates: one number made of a patch's weighted distances.
#![tactic(auto)]

ghost use Rattle.std.specs.Prelude.{◌≡◌, ℕ, ◌<◌, List, MatchOption};
ghost use Rattle.aggregate.specs.Aggregates.{Entries, LawfulAggregate, total, greatest, smallest};
ghost use Rattle.aggregate.specs.Choices.{chosen, chosen_lawful, Chooses};
ghost use Rattle.aggregate.specs.Folds.{total_lawful, greatest_lawful, smallest_lawful};

use refusal::Refusal;

/// A weighted distance, or an aggregate of up to eight: at most 133,171,200.
pub type Weighted = u32;

/// Makes one number of 1 to 8 weighted distances, taken in channel order.
///
/// `meaning` is the number it makes. Raising an entry never lowers it, and it is at most the sum of the entries.
pub trait Aggregate {
    ghost meaning: { Self → List ℕ → ℕ };

    fn combine(&self, entries: &[Weighted]) -> Weighted
        requires { Entries entries.now }
        ensures { result ≡ meaning self.now entries.now };

    ghost lawful: { (s : Self) → LawfulAggregate (meaning s) };
}

/// The sum.
#[derive(Clone, Copy)]
pub struct Sum;

/// The greatest.
#[derive(Clone, Copy)]
pub struct Max;

/// The least.
#[derive(Clone, Copy)]
pub struct Min;

impl Aggregate for Sum {
    ghost meaning = { λ _. total };

    ghost lawful = { λ s. total_lawful };

    fn combine(&self, entries: &[Weighted]) -> Weighted {
        entries.iter().sum()
    }
}

impl Aggregate for Max {
    ghost meaning = { λ _. greatest };

    ghost lawful = { λ s. greatest_lawful };

    fn combine(&self, entries: &[Weighted]) -> Weighted {
        entries.iter().fold(0, |most, x| most.max(*x))
    }
}

impl Aggregate for Min {
    ghost meaning = { λ _. smallest };

    ghost lawful = { λ s. smallest_lawful };

    fn combine(&self, entries: &[Weighted]) -> Weighted {
        entries.iter().fold(entries[0], |least, x| least.min(*x))
    }
}

/// One of the three, chosen at run time.
#[derive(Clone, Copy, PartialEq, Eq, Debug)]
pub enum Choice {
    Sum,
    Max,
    Min,
}

/// By its number: 0 is the sum, 1 the greatest, 2 the least; refused above 2.
impl TryFrom<u8> for Choice {
    type Error = Refusal;

    ghost try_from_gives = { Chooses };

    fn try_from(n: u8) -> Result<Choice, Refusal> {
        match n {
            0 => Ok(Choice::Sum),
            1 => Ok(Choice::Max),
            2 => Ok(Choice::Min),
            _ => Err(Refusal::UnknownAggregate),
        }
    }
}

impl Aggregate for Choice {
    ghost meaning = { chosen };

    ghost lawful = { chosen_lawful };

    fn combine(&self, entries: &[Weighted]) -> Weighted {
        match self {
            Choice::Sum => Sum.combine(entries),
            Choice::Max => Max.combine(entries),
            Choice::Min => Min.combine(entries),
        }
    }
}
