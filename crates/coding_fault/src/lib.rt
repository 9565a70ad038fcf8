// A fault in numbers, and back; which numbers stand for a case.
#![tactic(auto)]

ghost use Rattle.std.specs.Prelude.{◌≡◌};
ghost use Rattle.coding_fault.specs.Numbers.{fault_number, fault_of};

use fault::Fault;

// Functions, and no `From`: neither `Option` nor `u32` is a type of this crate.

pub fn fault_number(f: Option<Fault>) -> u32
    ensures { result ≡ fault_number f }
{
    match f {
        None => 0,
        Some(Fault::RunAway) => 1,
        Some(Fault::NotStarted) => 2,
        Some(Fault::Long) => 3,
        Some(Fault::Fast) => 4,
    }
}

// Total: whether a number is some fault's is asked once, of the image as a whole.
#[tactic(auto, using(common::proofs::Cases::cases), unfolding(crate::specs::Numbers::fault_of))]
pub fn fault_of(n: u32) -> Option<Fault>
    ensures { result ≡ fault_of n }
{
    match n {
        0 => None,
        1 => Some(Fault::RunAway),
        2 => Some(Fault::NotStarted),
        3 => Some(Fault::Long),
        _ => Some(Fault::Fast),
    }
}
