// The latch of a drive's faults: reset, a new fault, its age, the trip of the drive's supply, and its limits.
#![tactic(auto)]

ghost use Rattle.std.specs.Prelude.{◌≡◌};
ghost use Rattle.fault.specs.Latches.{trips_supply, reset_of, later_of, age_of, latched_of, supply_of, latch_within};

use fault::{Fault, Latch};

// The faults that trip the drive's supply: run-away and long.
fn trips_supply(f: Option<Fault>) -> bool
    ensures { result ≡ trips_supply f }
{
    matches!(f, Some(Fault::RunAway | Fault::Long))
}

// Rule 2: reset clears the fault.
#[tactic(auto, using(common::proofs::Cases::cases), unfolding(fault::specs::Latches::reset_of))]
pub fn reset(l: Latch, pressed: bool) -> Latch
    ensures { result ≡ reset_of l pressed }
{
    if pressed {
        Latch {
            fault: None,
            age: 0,
        }
    } else {
        l
    }
}

// A fault that arises takes the place of the one that is latched.
#[tactic(auto, using(common::proofs::Cases::cases), unfolding(fault::specs::Latches::later_of))]
fn later(old: Option<Fault>, new: Option<Fault>) -> Option<Fault>
    ensures { result ≡ later_of old new }
{
    new.or(old)
}

#[tactic(auto, using(common::proofs::Cases::cases), unfolding(fault::specs::Latches::age_of))]
fn aged(f: Option<Fault>, age: u32, t8: u32) -> u32
    ensures { result ≡ age_of f age t8 }
{
    if f.is_none() {
        return 0;
    }
    if age < t8 { age + 1 } else { t8 }
}

// The latch after a tick on which the fault `new`, or none, arose.
#[tactic(auto, unfolding(fault::specs::Latches::latched_of))]
pub fn latched(l: Latch, new: Option<Fault>, t8: u32) -> Latch
    ensures { result ≡ latched_of l new t8 }
{
    let fault = later(l.fault, new);
    Latch {
        fault,
        age: aged(fault, l.age, t8),
    }
}

// Whether the drive's supply is tripped: lasting, or on the first T8 ticks of the fault. `before` is the fault's age before
// this tick.
pub fn supply_trip(f: Option<Fault>, before: u32, t8: u32, lasting: bool) -> bool
    ensures { result ≡ supply_of f before t8 lasting }
{
    trips_supply(f) & (lasting | (before < t8))
}

// The limits of a record for its fault and age.
pub fn latch_within(l: Latch, t8: u32) -> bool
    ensures { result ≡ latch_within l t8 }
{
    (l.age <= t8) & (l.fault.is_some() | (l.age == 0))
}
