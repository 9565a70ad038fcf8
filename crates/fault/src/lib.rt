// The faults of a drive: which there are, and the output of each; the latch that holds one, whose functions are in `fault_latch`.
#![tactic(auto)]

ghost use Rattle.std.specs.Prelude.{◌≡◌};
ghost use Rattle.fault.specs.Latches.{is_fault, long_or_none, field_of};

#[derive(Clone, Copy, PartialEq, Eq)]
pub enum Fault {
    RunAway,
    NotStarted,
    Long,
    Fast,
}

// The fault that is latched, and the ticks that it has lasted, its first included, held at T8.
#[derive(Clone, Copy)]
pub struct Latch {
    pub fault: Option<Fault>,
    pub age: u32,
}

pub fn is_fault(f: Option<Fault>) -> bool
    ensures { result ≡ is_fault f }
{
    f.is_some()
}

// No fault, or 'long'.
pub fn is_long_or_none(f: Option<Fault>) -> bool
    ensures { result ≡ long_or_none f }
{
    matches!(f, None | Some(Fault::Long))
}

// The output field of a fault, 0 for none.
pub fn fault_field(f: Option<Fault>) -> u32
    ensures { result ≡ field_of f }
{
    match f {
        None => 0,
        Some(Fault::RunAway) => 19,
        Some(Fault::NotStarted) => 20,
        Some(Fault::Long) => 21,
        Some(Fault::Fast) => 22,
    }
}
