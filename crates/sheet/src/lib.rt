// The setting sheet: how the check of a list refuses it, by number and slot; the check itself is in `sheet_judging`.
#![tactic(auto)]

ghost use Rattle.std.specs.Prelude.{◌≡◌};
ghost use Rattle.sheet.specs.Sheet.{refusal_number, refusal_slot, number_of, slot_of};

use slots::CONTINUOUS;

// Why a list is refused.
#[derive(Clone, Copy, PartialEq, Eq)]
pub enum Refusal {
    WrongLength,
    OutOfRange { slot: u32 },
    TapOrder { slot: u32 },
    // The taps are to be counted without the contact that tells of a move.
    CountedTap,
}

impl Refusal {
    pub fn number(self) -> u32
        ensures { result ≡ refusal_number self }
    {
        match self {
            Refusal::WrongLength => 1,
            Refusal::OutOfRange { slot: _ } => 2,
            Refusal::TapOrder { slot: _ } => 3,
            Refusal::CountedTap => 5,
        }
    }

    // The slot that is returned with it.
    pub fn slot(self) -> u32
        ensures { result ≡ refusal_slot self }
    {
        match self {
            Refusal::WrongLength => 0,
            Refusal::OutOfRange { slot } => slot,
            Refusal::TapOrder { slot } => slot,
            Refusal::CountedTap => CONTINUOUS as u32,
        }
    }
}

// The number of an answer, 0 for a list that is taken.
pub fn number<T>(answer: &Result<T, Refusal>) -> u32
    ensures { result ≡ number_of answer.now }
{
    answer.as_ref().err().map_or(0, |refusal| refusal.number())
}

// The slot of an answer, 0 for a list that is taken.
pub fn slot<T>(answer: &Result<T, Refusal>) -> u32
    ensures { result ≡ slot_of answer.now }
{
    answer.as_ref().err().map_or(0, |refusal| refusal.slot())
}
