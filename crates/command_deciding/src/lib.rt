// Rule 9: the wait, the delay in force and the command that begins. It decides a command, and does not follow the drive.
#![tactic(auto, using(common::proofs::Cases::cases), unfolding(crate::specs::Deciding::decided_of))]

ghost use Rattle.std.specs.Prelude.{◌≡◌};
ghost use Rattle.command_deciding.specs.Deciding.{decided_of};

use command::{Decided, Situation};
use slots::SLOTS;

// Rule 9.
pub fn decide(s: &[u32; SLOTS], x: Situation) -> Decided
    ensures { result ≡ decided_of s.now x }
{
    if !x.resting {
        command::idle()
    } else if x.automatic {
        command_automatic::automatic_mode(s, x)
    } else {
        command_manual::manual_mode(x)
    }
}
