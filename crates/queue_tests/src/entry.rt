//! A record kind of another crate, which carries more than what is ordered.
ghost use Rattle.std.specs.Prelude.{[], ◌∷◌};
ghost use Rattle.queue_tests.specs.Entries.{ByBound};
ghost use Rattle.queue.proofs.Orders.{lex_reflexive, lex_transitive, lex_total};
ghost use Rattle.std.proofs.Common.{rules};

use queue::rank::Ranked;

/// An entry that comes by bound, and at equal bounds by identifier.
#[derive(Clone, Copy)]
pub struct Entry {
    pub bound: u32,
    pub id: u16,
    pub slot: u16,
    pub parts: [u32; 8],
}

impl Ranked for Entry {
    ghost before = { ByBound };

    ghost key = { λ x. x.bound ∷ (x.id ∷ []) };

    ghost reflexive = { λ x. lex_reflexive x.bound x.id };

    ghost transitive = { λ x y z. lex_transitive x.bound y.bound z.bound x.id y.id z.id };

    ghost total = { λ x y. lex_total x.bound y.bound x.id y.id };

    ghost antisymmetric = { Prim.search rules };

    ghost keyed = { Prim.search rules };

    fn precedes(&self, other: &Self) -> bool {
        if self.bound == other.bound {
            self.id <= other.id
        } else {
            self.bound < other.bound
        }
    }
}
