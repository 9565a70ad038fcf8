// Rule 9 in manual mode: a press, one that was made while the drive ran included.
#![tactic(auto, using(crate::proofs::Made::made), unfolding(crate::specs::Manual::pressed_of))]

ghost use Rattle.std.specs.Prelude.{◌≡◌};
ghost use Rattle.command_manual.specs.Manual.{pressed_of, sought_of, manual_of, remembered_of};

use command::{Decided, Heard, Situation};
use ways::Direction;

// Exactly one button pressed, and that one not on the previous tick.
fn pressed(h: Heard) -> Option<Direction>
    ensures { result ≡ pressed_of h.buttons h.before }
{
    let now = h.buttons;
    if now.raise & !now.lower & !h.before.raise {
        Some(Direction::Raise)
    } else if now.lower & !now.raise & !h.before.lower {
        Some(Direction::Lower)
    } else {
        None
    }
}

// The press that this tick goes by: its own, or else the remembered one.
fn sought(x: Situation) -> Option<Direction>
    ensures { result ≡ sought_of x }
{
    let press = pressed(x.heard);
    ways::newer(press, x.heard.remembered)
}

// A press commands where neither manual nor its direction is blocked; the wait is 0.
pub fn manual_mode(x: Situation) -> Decided
    ensures { result ≡ manual_of x }
{
    let b = x.blocks;
    match sought(x) {
        Some(d) => {
            if b.manual | blocks::opposes(b, d) {
                command::idle()
            } else {
                Decided {
                    command: Some(d),
                    wait: None,
                }
            }
        }
        None => command::idle(),
    }
}

// The press that is remembered after this tick. `rested`: the tick starts with the drive at rest, and so leaves none; `dropped`:
// something drops it.
pub fn remember(rested: bool, dropped: bool, h: Heard) -> Option<Direction>
    ensures { result ≡ remembered_of rested dropped h }
{
    if rested | dropped {
        return None;
    }
    let latest = pressed(h);
    ways::newer(latest, h.remembered)
}
