// Rule 2, reset; rule 7, the drive of either kind and its faults.
#![tactic(auto)]

ghost use Rattle.std.specs.Prelude.{◌≡◌};
ghost use Rattle.acting_supervising.specs.Supervising.{contact_of, holding_of, followed_of, supervised_of};

use acting_judging::Finding;
use drive::Drive;
use drive_follow::{Contact, Followed};
use drive_hold::Holding;
use fault::Latch;
use input::Contacts;
use slots::{CONTINUOUS, SLOTS, T4, T5, T6, T8};
use ways::Direction;

// The drive after the rule, the move that ended, whether an operation counts, the latch, and the fault's age before this tick.
#[derive(Clone, Copy)]
pub struct Supervised {
    pub drive: Drive,
    pub ended: Option<Direction>,
    pub operation: bool,
    pub latch: Latch,
    pub before: u32,
}

// What a drive with a switching contact goes by, with the latch after reset.
#[tactic(auto, unfolding(crate::specs::Supervising::contact_of))]
fn contact_of(s: &[u32; SLOTS], c: Contacts, tap: u32, l: Latch, last: Option<Direction>) -> Contact
    ensures { result ≡ contact_of s.now c tap l last }
{
    Contact {
        local: c.local_drive,
        closed: c.switching,
        faulty: fault::is_fault(l.fault),
        sliding: tap_sliding::is_sliding(s, tap),
        last,
        t4: s[T4],
        t5: s[T5],
        t6: s[T6],
    }
}

// What a drive without one goes by. The blocks are those of the latch after reset: a fault that arises on this tick is left
// aside.
#[tactic(auto, unfolding(crate::specs::Supervising::holding_of))]
fn holding_of(s: &[u32; SLOTS], c: Contacts, x: Finding, l: Latch) -> Holding
    ensures { result ≡ holding_of s.now c x l }
{
    Holding {
        local: c.local_drive,
        automatic: c.automatic,
        in_band: busbar_level::is_in_band(x.level),
        side: busbar_level::side_of(x.level),
        blocks: acting_judging::block(s, c, l.fault, x),
        t4: s[T4],
    }
}

// Rule 7, by the kind of drive.
#[tactic(auto, using(common::proofs::Cases::cases), unfolding(crate::specs::Supervising::followed_of))]
fn followed(
    s: &[u32; SLOTS],
    c: Contacts,
    x: Finding,
    d: Drive,
    l: Latch,
    last: Option<Direction>,
) -> Followed
    ensures { result ≡ followed_of s.now c x d l last }
{
    if s[CONTINUOUS] == 1 {
        drive_hold::hold(d, holding_of(s, c, x, l))
    } else {
        drive_follow::follow(d, contact_of(s, c, x.tap, l, last))
    }
}

// Rules 2 and 7.
#[tactic(auto, unfolding(crate::specs::Supervising::supervised_of, crate::specs::Supervising::cleared_of))]
pub fn supervise(
    s: &[u32; SLOTS],
    c: Contacts,
    x: Finding,
    d: Drive,
    l: Latch,
    last: Option<Direction>,
) -> Supervised
    ensures { result ≡ supervised_of s.now c x d l last }
{
    let cleared = fault_latch::reset(l, c.reset);
    let moved = followed(s, c, x, d, cleared, last);
    Supervised {
        drive: moved.drive,
        ended: moved.ended,
        operation: moved.operation,
        latch: fault_latch::latched(cleared, moved.fault, s[T8]),
        before: cleared.age,
    }
}
