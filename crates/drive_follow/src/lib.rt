// Rule 7: a drive with a switching contact over one tick.
#![tactic(auto)]

ghost use Rattle.std.specs.Prelude.{◌≡◌};
ghost use Rattle.drive_follow.specs.Follow.{unmoved_of, faulty_of, ended_of, stay_of, own_of, rest_of, asked_of, moving_of, follow_of, rests_of, within_of};

use drive::Drive;
use fault::Fault;
use ways::Direction;

// What rule 7 goes by. `faulty`: a fault is latched. `sliding`: the tap is a sliding one. `last`: the last direction.
#[derive(Clone, Copy)]
pub struct Contact {
    pub local: bool,
    pub closed: bool,
    pub faulty: bool,
    pub sliding: bool,
    pub last: Option<Direction>,
    pub t4: u32,
    pub t5: u32,
    pub t6: u32,
}

// The drive after the tick, the fault that arose, the direction of the move that ended on it, and whether an operation counts.
#[derive(Clone, Copy)]
pub struct Followed {
    pub drive: Drive,
    pub fault: Option<Fault>,
    pub ended: Option<Direction>,
    pub operation: bool,
}

pub fn unmoved(d: Drive) -> Followed
    ensures { result ≡ unmoved_of d }
{
    Followed {
        drive: d,
        fault: None,
        ended: None,
        operation: false,
    }
}

pub fn faulty(f: Option<Fault>) -> Followed
    ensures { result ≡ faulty_of f }
{
    Followed {
        fault: f,
        ..unmoved(Drive::Resting)
    }
}

fn ended(d: Direction, f: Option<Fault>) -> Followed
    ensures { result ≡ ended_of d f }
{
    Followed {
        fault: f,
        ended: Some(d),
        operation: true,
        ..unmoved(Drive::Resting)
    }
}

// An asked command stays for one tick more, unless its age then reaches the limit: `over` comes in its place.
#[tactic(auto, using(common::proofs::Cases::cases))]
pub fn stay_asked(d: Direction, age: u32, automatic: bool, limit: u32, over: Followed) -> Followed
    ensures { result ≡ stay_of d age automatic limit over }
{
    if age < limit {
        let next = age + 1;
        if next < limit {
            return unmoved(Drive::Asked {
                direction: d,
                age: next,
                automatic,
            });
        }
    }
    over
}

// The contact has closed by itself at a sliding tap.
#[tactic(auto, unfolding(crate::specs::Follow::own_of))]
fn own_move(last: Option<Direction>) -> Followed
    ensures { result ≡ own_of last }
{
    match last {
        None => faulty(Some(Fault::RunAway)),
        Some(d) => unmoved(Drive::Moving {
            direction: d,
            length: 1,
            commanded: false,
        }),
    }
}

#[tactic(auto, using(common::proofs::Cases::cases), unfolding(crate::specs::Follow::rest_of))]
fn from_rest(x: Contact) -> Followed
    ensures { result ≡ rest_of x }
{
    if x.closed & !x.faulty {
        if x.sliding {
            own_move(x.last)
        } else {
            faulty(Some(Fault::RunAway))
        }
    } else {
        unmoved(Drive::Resting)
    }
}

#[tactic(auto, using(common::proofs::Cases::cases), unfolding(crate::specs::Follow::asked_of))]
fn from_asked(d: Direction, age: u32, automatic: bool, x: Contact) -> Followed
    ensures { result ≡ asked_of d age automatic x }
{
    if x.closed {
        unmoved(Drive::Moving {
            direction: d,
            length: 1,
            commanded: true,
        })
    } else {
        stay_asked(d, age, automatic, x.t5, faulty(Some(Fault::NotStarted)))
    }
}

#[tactic(auto, using(common::proofs::Cases::cases), unfolding(crate::specs::Follow::moving_of))]
fn from_moving(d: Direction, length: u32, commanded: bool, x: Contact) -> Followed
    ensures { result ≡ moving_of d length commanded x }
{
    if x.closed {
        if length < x.t4 {
            unmoved(Drive::Moving {
                direction: d,
                length: length + 1,
                commanded,
            })
        } else {
            faulty(Some(Fault::Long))
        }
    } else if commanded & (length < x.t6) {
        ended(d, Some(Fault::Fast))
    } else {
        ended(d, None)
    }
}

// Rule 7.
#[tactic(auto, using(common::proofs::Cases::cases), unfolding(crate::specs::Follow::follow_of, crate::specs::Follow::supervised_of))]
pub fn follow(d: Drive, x: Contact) -> Followed
    ensures { result ≡ follow_of d x }
{
    if x.local {
        return unmoved(Drive::Resting);
    }
    match d {
        Drive::Resting => from_rest(x),
        Drive::Asked {
            direction,
            age,
            automatic,
        } => from_asked(direction, age, automatic, x),
        Drive::Moving {
            direction,
            length,
            commanded,
        } => from_moving(direction, length, commanded, x),
    }
}

// At rest: no asked command and no move.
pub fn rests(d: Drive) -> bool
    ensures { result ≡ rests_of d }
{
    d == Drive::Resting
}

// The limits of a record for a drive with a switching contact.
#[tactic(auto, using(common::proofs::Cases::cases), unfolding(crate::specs::Follow::within_of))]
pub fn within(d: Drive, t4: u32, t5: u32) -> bool
    ensures { result ≡ within_of d t4 t5 }
{
    match d {
        Drive::Resting => true,
        Drive::Asked { age, .. } => age < t5,
        Drive::Moving { length, .. } => (1 <= length) & (length <= t4),
    }
}
