// Rule 10: when a command is on.
#![tactic(auto)]

ghost use Rattle.std.specs.Prelude.{◌≡◌};
ghost use Rattle.drive_shown.specs.Shown.{on_of};

use drive::Drive;
use ways::Direction;

// Rule 10: the command that is on.
#[tactic(auto, using(common::proofs::Cases::cases), unfolding(crate::specs::Shown::on_of))]
pub fn command_on(d: Drive, t7: u32) -> Option<Direction>
    ensures { result ≡ on_of d t7 }
{
    match d {
        Drive::Resting => None,
        Drive::Asked { direction, .. } => Some(direction),
        Drive::Moving {
            direction,
            length,
            commanded,
        } => {
            if commanded & (length <= t7) {
                Some(direction)
            } else {
                None
            }
        }
    }
}
