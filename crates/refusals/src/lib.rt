// Why a call can be refused: the refusals by their numbers.
#![tactic(auto)]

ghost use Rattle.std.specs.Prelude.{◌≡◌};
ghost use Rattle.refusals.specs.Numbers.{number};
ghost use Rattle.refusals.specs.Refusals.{number_of};

// Why a call is refused. The number is what callers see (docs/RULES.md, Refusals).
#[derive(Clone, Copy, Debug, PartialEq, Eq)]
pub enum Refusal {
    Lists = 1,
    Rows = 2,
    Space = 3,
    Ticks = 4,
    Hours = 5,
    Window = 6,
    Mark = 7,
    NoPlan = 8,
    NotPlan = 9,
    Buffer = 10,
    Form = 11,
    Tape = 12,
    FirstTick = 13,
    Gap = 14,
    NoRow = 15,
    Candidates = 16,
}

impl From<Refusal> for u8 {
    ghost from_gives = { λ refusal n. n ≡ number refusal };

    fn from(refusal: Refusal) -> u8 {
        refusal as u8
    }
}

// The number of what a check reports; 0 for accepted.
pub fn number(outcome: Result<(), Refusal>) -> u8
    ensures { result ≡ number_of outcome }
{
    match outcome {
        Ok(()) => 0,
        Err(refusal) => refusal.into(),
    }
}
