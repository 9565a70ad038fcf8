// What rule 9 keeps, what it goes by and what it decides: the wait, its memory, the situation, the decision.
#![tactic(auto)]

ghost use Rattle.std.specs.Prelude.{◌≡◌};
ghost use Rattle.command.specs.Idling.{idle_of};

use blocks::Blocks;
use keys::{Buttons, Keys};
use ways::Direction;

// A wait that has not come to a command is shorter than the longest delay that a sheet can set.
pub const LONGEST_WAIT: u32 = 35_999;

// The ticks for which a deviation has been waited for, on the side that a command of this direction answers.
#[derive(Clone, Copy, PartialEq, Eq)]
pub struct Wait {
    pub direction: Direction,
    pub ticks: u32,
}

// What rule 9 keeps from one tick to the next. `repeat` is the side of the last automatic command, while T2 goes by it; `keys`
// are those of the previous tick, its mode included; `remembered` is the press that was made while the drive ran.
#[derive(Clone, Copy)]
pub struct Memory {
    pub wait: Option<Wait>,
    pub repeat: Option<Direction>,
    pub keys: Keys,
    pub remembered: Option<Direction>,
}

// What manual mode goes by: the buttons of the mode's pair, on this tick and on the previous one, and the press that is still
// remembered, made while the drive ran.
#[derive(Clone, Copy)]
pub struct Heard {
    pub buttons: Buttons,
    pub before: Buttons,
    pub remembered: Option<Direction>,
}

// What rule 9 goes by. `resting`: the drive rested at tick start and still does. `side`: the command that the deviation asks
// for. `far`: U is above U_set5. `repeat`: the side of the last automatic command, while T2 goes by it.
#[derive(Clone, Copy)]
pub struct Situation {
    pub resting: bool,
    pub automatic: bool,
    pub side: Option<Direction>,
    pub far: bool,
    pub blocks: Blocks,
    pub wait: Option<Wait>,
    pub repeat: Option<Direction>,
    pub heard: Heard,
}

// The command that begins on this tick, and the wait after it.
#[derive(Clone, Copy)]
pub struct Decided {
    pub command: Option<Direction>,
    pub wait: Option<Wait>,
}

// No command, and a wait of 0.
pub fn idle() -> Decided
    ensures { result ≡ idle_of }
{
    Decided {
        command: None,
        wait: None,
    }
}
