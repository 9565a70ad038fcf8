// 02, ticket 2: a drive without a switching contact over one tick. Its command is held, and nothing tells of a move.
#![tactic(auto)]

ghost use Rattle.std.specs.Prelude.{◌≡◌};
ghost use Rattle.drive_hold.specs.Hold.{released_of, ends_of, automatic_of, manual_of, held_of, hold_of, within_of};

use blocks::Blocks;
use drive::Drive;
use drive_follow::Followed;
use fault::Fault;
use ways::Direction;

// What a held command goes by. `automatic`: the mode. `side`: the command that the deviation asks for. `blocks`: what the tick
// blocks, a fault that arises on it left aside.
#[derive(Clone, Copy)]
pub struct Holding {
    pub local: bool,
    pub automatic: bool,
    pub in_band: bool,
    pub side: Option<Direction>,
    pub blocks: Blocks,
    pub t4: u32,
}

// The command has ended, and counts as one operation.
fn released() -> Followed
    ensures { result ≡ released_of }
{
    Followed {
        operation: true,
        ..drive_follow::unmoved(Drive::Resting)
    }
}

// Whether the tick ends an automatic command of this direction: in band, on the other side, manual, or blocked for it.
#[tactic(auto, unfolding(crate::specs::Hold::ends_of))]
fn ends(d: Direction, x: Holding) -> bool
    ensures { result ≡ ends_of d x }
{
    let blocked = x.blocks.automatic | blocks::opposes(x.blocks, d);
    x.in_band | ways::opposite(x.side, Some(d)) | !x.automatic | blocked
}

// An automatic command stays until a tick ends it; on the T4th tick after its first it ends as 'long'.
#[tactic(auto, using(common::proofs::Cases::cases), unfolding(crate::specs::Hold::automatic_of))]
fn hold_automatic(d: Direction, age: u32, x: Holding) -> Followed
    ensures { result ≡ automatic_of d age x }
{
    if ends(d, x) {
        released()
    } else {
        drive_follow::stay_asked(d, age, true, x.t4, drive_follow::faulty(Some(Fault::Long)))
    }
}

// A manual command stays for T4 ticks.
#[tactic(auto, using(common::proofs::Cases::cases), unfolding(crate::specs::Hold::manual_of))]
fn hold_manual(d: Direction, age: u32, x: Holding) -> Followed
    ensures { result ≡ manual_of d age x }
{
    drive_follow::stay_asked(d, age, false, x.t4, released())
}

#[tactic(auto, using(common::proofs::Cases::cases))]
fn hold_command(d: Direction, age: u32, automatic: bool, x: Holding) -> Followed
    ensures { result ≡ held_of d age automatic x }
{
    if automatic {
        hold_automatic(d, age, x)
    } else {
        hold_manual(d, age, x)
    }
}

// The drive after the tick. No accepted record of such a drive has a move.
#[tactic(auto, using(common::proofs::Cases::cases), unfolding(crate::specs::Hold::hold_of, crate::specs::Hold::held_from))]
pub fn hold(d: Drive, x: Holding) -> Followed
    ensures { result ≡ hold_of d x }
{
    if x.local {
        return drive_follow::unmoved(Drive::Resting);
    }
    match d {
        Drive::Asked {
            direction,
            age,
            automatic,
        } => hold_command(direction, age, automatic, x),
        Drive::Resting | Drive::Moving { .. } => drive_follow::unmoved(Drive::Resting),
    }
}

// The limits of a record for a drive without a switching contact: a rule of its own, without moves.
#[tactic(auto, using(common::proofs::Cases::cases), unfolding(crate::specs::Hold::within_of))]
pub fn within(d: Drive, t4: u32) -> bool
    ensures { result ≡ within_of d t4 }
{
    match d {
        Drive::Resting => true,
        Drive::Asked { age, .. } => age < t4,
        Drive::Moving { .. } => false,
    }
}
