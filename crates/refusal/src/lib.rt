//! Why a call that cannot be served is refused.
#![tactic(auto)]

ghost use Rattle.std.specs.Prelude.{◌≡◌, MatchOption};
ghost use Rattle.refusal.specs.Refusals.{number, listed, Listed, code_of};

/// Why a call is refused. Each case has a number that users know; they are fixed.
#[derive(Clone, Copy, PartialEq, Eq, Debug)]
pub enum Refusal {
    /// 1: the rows handed over are not as long as a patch.
    WrongRowsLength,
    /// 2: the accession number is held already.
    AlreadyHeld,
    /// 3: every slot is taken.
    Full,
    /// 4: the accession number is not held.
    NotHeld,
    /// 5: there is no such channel.
    NoSuchChannel,
    /// 6: the channel has eight pivots.
    PivotsFull,
    /// 7: the channel has no pivot of that number.
    NoSuchPivot,
    /// 8: there is not one weight for each channel.
    WrongWeightsLength,
    /// 9: no neighbour is wanted, k being 0.
    NothingWanted,
    /// 10: the list for the hits is too short.
    HitsTooShort,
    /// 11: a scratch list is too short.
    ScratchTooShort,
    /// 12: the capacity is above 4,096, or the store is too short.
    BadStore,
    /// 13: the set has more than eight channels.
    TooManyChannels,
    /// 14: the command byte is unknown.
    UnknownCommand,
    /// 15: the input ends inside a command.
    CutShort,
    /// 16: the aggregate's number is above 2.
    UnknownAggregate,
}

impl Refusal {
    /// The number that users know it by: what a call answers in print and in C, and so no name.
    pub fn number(self) -> u8
        ensures value { result ≡ number self }
        ensures cases { Listed }
    {
        match self {
            Refusal::WrongRowsLength => 1,
            Refusal::AlreadyHeld => 2,
            Refusal::Full => 3,
            Refusal::NotHeld => 4,
            Refusal::NoSuchChannel => 5,
            Refusal::PivotsFull => 6,
            Refusal::NoSuchPivot => 7,
            Refusal::WrongWeightsLength => 8,
            Refusal::NothingWanted => 9,
            Refusal::HitsTooShort => 10,
            Refusal::ScratchTooShort => 11,
            Refusal::BadStore => 12,
            Refusal::TooManyChannels => 13,
            Refusal::UnknownCommand => 14,
            Refusal::CutShort => 15,
            Refusal::UnknownAggregate => 16,
        }
    }
}

/// The number that a call answers in print and in C: 0, or its refusal's.
pub fn code(outcome: Result<(), Refusal>) -> u8
    ensures { result ≡ code_of outcome }
{
    match outcome {
        Ok(()) => 0,
        Err(refusal) => refusal.number(),
    }
}
