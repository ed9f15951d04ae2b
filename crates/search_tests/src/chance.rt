//! Numbers that look random and are the same at each run.
ghost use Rattle.std.specs.Prelude.{◌<◌};

use crate::scan::{Patch, WIDEST};
use aggregate::Choice;

/// A shift register.
#[derive(Drop)]
pub struct Chance {
    state: u32,
    // which bits of a row's byte may be set: few make many patches alike
    mask: u8,
}

/// A question drawn: of the rows and the weights an index takes as many as it has channels for.
#[derive(Clone, Copy)]
pub struct Drawn {
    pub rows: [u8; WIDEST],
    pub weights: [u8; 8],
    pub aggregate: Choice,
    pub k: u16,
    pub radius: u32,
}

impl Chance {
    /// Each seed draws other numbers.
    pub fn new(seed: u16) -> Self {
        Chance {
            state: u32::from(seed) + 1,
            mask: 0xff,
        }
    }

    fn next(&mut self) -> u32 {
        let mut x = self.state;
        x ^= x << 13;
        x ^= x >> 17;
        x ^= x << 5;
        self.state = x;
        x
    }

    /// A number below n.
    pub fn below(&mut self, n: u32) -> u32
        requires { 0 < n }
        ensures { result < n }
    {
        (self.next() >> 7) % n
    }

    /// Any byte.
    pub fn byte(&mut self) -> u8 {
        self.below(256) as u8
    }

    /// One of four numbers.
    pub fn one_of(&mut self, numbers: [u32; 4]) -> u32 {
        numbers[self.below(4) as usize]
    }

    /// From here on, rows are drawn from few values or from many.
    pub fn regrain(&mut self) {
        self.mask = (self.one_of([0x01, 0x07, 0x3f, 0xff]) & 0xff) as u8;
    }

    /// The rows of a patch.
    pub fn rows(&mut self) -> [u8; WIDEST] {
        let mut rows = [0u8; WIDEST];
        for x in rows.iter_mut() {
            *x = self.byte() & self.mask;
        }
        rows
    }

    /// A patch; its accession number may be held already.
    pub fn patch(&mut self) -> Patch {
        Patch {
            accession: self.below(96) as u16,
            rows: self.rows(),
        }
    }

    fn weights(&mut self) -> [u8; 8] {
        let mut weights = [0u8; 8];
        for x in weights.iter_mut() {
            let any = self.below(256);
            *x = (self.one_of([0, 1, 2, any]) & 0xff) as u8;
        }
        weights
    }

    fn aggregate(&mut self) -> Choice {
        Choice::try_from(self.below(3) as u8).unwrap_or(Choice::Sum)
    }

    /// None, few, some, or as many as are asked for.
    pub fn budget(&mut self) -> u32 {
        let few = self.below(12);
        let some = self.below(200);
        self.one_of([0, few, some, u32::MAX])
    }

    /// A question.
    pub fn question(&mut self) -> Drawn {
        let few = 1 + self.below(8);
        let near = self.below(40);
        let far = self.below(3000);
        Drawn {
            rows: self.rows(),
            weights: self.weights(),
            aggregate: self.aggregate(),
            k: (self.one_of([1, few, 64, 65535]) & 0xffff) as u16,
            radius: self.one_of([near, far, far, u32::MAX]),
        }
    }
}
