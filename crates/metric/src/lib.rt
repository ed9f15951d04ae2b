//! Metrics on rows of bytes, and sets of channels made of them.
#![tactic(auto)]

ghost use Rattle.std.specs.Prelude.{◌≡◌, ℕ, List, length};
ghost use Rattle.metric.specs.Model.{Model, Lawful, Adds};

mod bytes;
pub mod channels;
pub mod chebyshev;
pub mod circular;
pub mod city_block;
pub mod formulas;
mod gathered;
pub mod hamming;
mod width;

/// A distance between rows of bytes of one width.
///
/// `model` is what the metric means. `asked` is its record of questions: the pairs of rows that it has noted as asked
/// about; a metric need not note any. A question is answered by the meaning, changes nothing but the record, and adds at
/// most its own pair to it.
pub trait Metric {
    ghost model: { Self → Model };

    ghost asked: { Self → List ℕ → List ℕ → Type 0 };

    /// How many bytes a row has: 1 to 256.
    fn width(&self) -> usize
        ensures { result ≡ (model self.now).width };

    /// A number that no distance exceeds, at most 65,280.
    fn max_distance(&self) -> u16
        ensures { result ≡ (model self.now).top };

    /// The distance of two rows of the metric's width.
    fn distance(&mut self, a: &[u8], b: &[u8]) -> u16
        requires left { length a.now ≡ (model self.old).width }
        requires right { length b.now ≡ (model self.old).width }
        ensures value { result ≡ (model self.old).dist a.now b.now }
        ensures kept { model self.new ≡ model self.old }
        ensures adds { Adds (asked self.old) (asked self.new) a.now b.now };

    ghost lawful: { (m : Self) → Lawful (model m) };
}
