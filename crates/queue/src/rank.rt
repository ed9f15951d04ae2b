//! Record kinds with a total order.
ghost use Rattle.std.specs.Prelude.{◌≡◌, ℕ, ◌≤◌, ◌⊎◌, List, [], ◌∷◌};
ghost use Rattle.queue.specs.Orders.{Says};
ghost use Rattle.queue.specs.Kinds.{Descending};
ghost use Rattle.std.proofs.Common.{rules};

// `Ord`, and `Reverse` of one, ask more of a record kind: that records which compare equal are equal in all they carry.
/// A record kind in a total order.
///
/// `before x y` says that x comes no later than y. `key` is what is ordered: a record may carry more.
pub trait Ranked: Copy {
    ghost before: { Self → Self → Type 0 };

    ghost key: { Self → List ℕ };

    /// Whether this record comes no later than the other.
    fn precedes(&self, other: &Self) -> bool
        ensures { Says result (before self.now other.now) };

    ghost reflexive: { (x : Self) → before x x };

    ghost transitive: { (x y z : Self) → before x y → before y z → before x z };

    ghost total: { (x y : Self) → before x y ⊎ before y x };

    ghost antisymmetric: { (x y : Self) → before x y → before y x → key x ≡ key y };

    ghost keyed: { (x y : Self) → key x ≡ key y → before x y };
}

/// A number by which the greatest comes first.
#[derive(Clone, Copy, PartialEq, Eq, Debug)]
pub struct Upper(pub u32);

/// By number, the greatest first.
impl Ranked for Upper {
    ghost before = { Descending };

    ghost key = { λ x. x.0 ∷ [] };

    ghost reflexive = { Prim.search rules };

    ghost transitive = { Prim.search rules };

    ghost total = { Prim.search rules };

    ghost antisymmetric = { Prim.search rules };

    ghost keyed = { Prim.search rules };

    fn precedes(&self, other: &Self) -> bool {
        other.0 <= self.0
    }
}
