// Document 01's "Numbers returned": why a call is refused, and the number that says it.
#![tactic(auto)]

ghost use Rattle.std.specs.Prelude.{◌≡◌};
ghost use Rattle.answers.specs.Number.{refusal_number, number};

// Each refusal, in the order of its numbers.
#[derive(Clone, Copy, Debug, PartialEq, Eq)]
pub enum Refusal {
    PlanLength,
    PlanVersion,
    PlanCounts,
    PlanSize,
    PlanRule,
    PlanChannel,
    PlanDegree,
    State,
    FrameLength,
    FrameVersion,
    FrameKind,
    StepsUsedUp,
    NoSuchPlace,
    WrongPlace,
    WrongStatus,
    CrashedNeighbour,
    WrongRecord,
    NothingThere,
    ChannelFull,
    RowComplete,
    NoSpace,
    Table,
    OutputShort,
    NoPlacing,
    NoSuchConsole,
    NotAllUp,
    NothingKept,
    ListLength,
}

impl From<Refusal> for u32 {
    ghost from_gives = { λ r n. n ≡ refusal_number r };

    fn from(r: Refusal) -> u32 {
        match r {
            Refusal::PlanLength => 1,
            Refusal::PlanVersion => 2,
            Refusal::PlanCounts => 3,
            Refusal::PlanSize => 4,
            Refusal::PlanRule => 5,
            Refusal::PlanChannel => 6,
            Refusal::PlanDegree => 7,
            Refusal::State => 8,
            Refusal::FrameLength => 9,
            Refusal::FrameVersion => 10,
            Refusal::FrameKind => 11,
            Refusal::StepsUsedUp => 12,
            Refusal::NoSuchPlace => 13,
            Refusal::WrongPlace => 14,
            Refusal::WrongStatus => 15,
            Refusal::CrashedNeighbour => 16,
            Refusal::WrongRecord => 17,
            Refusal::NothingThere => 18,
            Refusal::ChannelFull => 19,
            Refusal::RowComplete => 20,
            Refusal::NoSpace => 21,
            Refusal::Table => 22,
            Refusal::OutputShort => 23,
            Refusal::NoPlacing => 24,
            Refusal::NoSuchConsole => 25,
            Refusal::NotAllUp => 26,
            Refusal::NothingKept => 27,
            Refusal::ListLength => 28,
        }
    }
}

// What a call that ended so answers: 0, or its refusal's number.
pub fn number(outcome: Result<(), Refusal>) -> u32
    ensures { result ≡ number outcome }
{
    match outcome {
        Ok(()) => 0,
        Err(refusal) => u32::from(refusal),
    }
}
