// A look ahead (02, ticket 8): what it answers. `specs/Looking.antt` says what that is, and `proofs/` has its laws; the look itself is
// crate `ahead_looking`.
#![tactic(auto)]

ghost use Rattle.std.specs.Prelude.{◌≡◌};
ghost use Rattle.ahead.specs.Looking.{number_of};

use showing::FIELDS;
use ways::Direction;

// The longest horizon, in ticks.
pub const LONGEST_HORIZON: u32 = 36_000;

// Why there is no look: the record is outside its limits, or the horizon is 0 or above the longest.
#[derive(Clone, Copy, PartialEq, Eq)]
pub enum Refusal {
    Record,
    Horizon,
}

impl Refusal {
    pub fn number(self) -> u32
        ensures { result ≡ number_of self }
    {
        match self {
            Refusal::Record => 4,
            Refusal::Horizon => 6,
        }
    }
}

// The tick, counted from 1, on which the first command begins, and its direction.
#[derive(Clone, Copy)]
pub struct FirstCommand {
    pub tick: u32,
    pub direction: Direction,
}

// What stands after that tick, or after the last one of the horizon where no command begins: the outputs, and the record that is next.
#[derive(Clone, Copy)]
pub struct Outlook<R> {
    pub begun: Option<FirstCommand>,
    pub outputs: [u32; FIELDS],
    pub next: R,
}
