// Panel and dispatcher: which pair of buttons rule 9 goes by, and what a change of mode leaves of a remembered press.
#![tactic(auto, using(crate::proofs::Made::made), unfolding(crate::specs::Pairs::pair_of, crate::specs::Pairs::heard_of))]

ghost use Rattle.std.specs.Prelude.{◌≡◌};
ghost use Rattle.command_pairs.specs.Pairs.{pair_of, changed_of, heard_of};

use command::Heard;
use keys::{Buttons, Keys};
use ways::Direction;

// The pair of a mode.
fn pair_of(remote: bool, k: Keys) -> Buttons
    ensures { result ≡ pair_of remote k }
{
    if remote { k.dispatcher } else { k.panel }
}

// Whether the mode is another one than on the previous tick.
fn mode_changed(now: Keys, before: Keys) -> bool
    ensures { result ≡ changed_of now before }
{
    now.remote != before.remote
}

// The pair of this tick's mode, with its own previous tick. A change of mode drops the press.
pub fn hear(now: Keys, before: Keys, press: Option<Direction>) -> Heard
    ensures { result ≡ heard_of now before press }
{
    let changed = mode_changed(now, before);
    Heard {
        buttons: pair_of(now.remote, now),
        before: pair_of(now.remote, before),
        remembered: if changed { None } else { press },
    }
}
