//! Where a search takes its numbers from.
ghost use Rattle.std.specs.Prelude.{◌≡◌, ℕ, ◌<◌, List};
ghost use Rattle.metric.specs.Model.{Model};
ghost use Rattle.metric.specs.Channels.{AddsAt};
ghost use Rattle.engine.specs.Tables.{Tables};

/// Bounds and distances by slot and channel. Where the numbers lie is `Self`, and what measures a distance is an `M`, which is lent to
/// each question: so a caller keeps its M, and is told what became of it.
///
/// `tables` is what the two mean together, `asked` the record of questions that lies in M, `ready` what must hold of both to be asked, and
/// `metrics` what M measures by. A question for a distance is answered by the tables, changes nothing but the record, and adds at most its
/// own pair of rows.
pub trait Source<M> {
    ghost tables: { Self → M → Tables };

    ghost asked: { Self → M → ℕ → List ℕ → List ℕ → Type 0 };

    ghost ready: { Self → M → Type 0 };

    ghost metrics: { Self → M → List Model };

    /// How many slots hold a patch.
    fn slots(&self, meter: &M) -> usize
        requires { ready self.now meter.now }
        ensures { result ≡ (tables self.now meter.now).slots };

    /// The accession number of a slot.
    fn number(&self, meter: &M, slot: usize) -> u16
        requires ready { ready self.now meter.now }
        requires slot { slot < (tables self.now meter.now).slots }
        ensures { result ≡ (tables self.now meter.now).number slot };

    /// The bounds of a slot's distance in channel c, lower and upper.
    fn bounds(&self, meter: &M, slot: usize, c: usize) -> (u16, u16)
        requires ready { ready self.now meter.now }
        requires slot { slot < (tables self.now meter.now).slots }
        requires channel { c < (tables self.now meter.now).channels }
        ensures lower { result.0 ≡ (tables self.now meter.now).lower slot c }
        ensures upper { result.1 ≡ (tables self.now meter.now).upper slot c };

    /// A slot's distance in channel c.
    fn distance(&self, meter: &mut M, slot: usize, c: usize) -> u16
        requires ready { ready self.now meter.old }
        requires slot { slot < (tables self.now meter.old).slots }
        requires channel { c < (tables self.now meter.old).channels }
        ensures value { result ≡ (tables self.now meter.old).dist slot c }
        ensures kept { tables self.now meter.new ≡ tables self.now meter.old }
        ensures same { metrics self.now meter.new ≡ metrics self.now meter.old }
        ensures ready { ready self.now meter.new }
        ensures adds { AddsAt (asked self.now meter.old) (asked self.now meter.new) c ((tables self.now meter.old).left slot c) ((tables self.now meter.old).right slot c) };
}
