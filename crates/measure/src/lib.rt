// Readings, and what they count as: the types, with their definitions in specs/ and the laws in proofs/. It has no functions of its own.
#![tactic(auto)]

// What the module hands over: a number in V or A, fresh or held from before, or nothing.
#[derive(Clone, Copy)]
pub enum Reading {
    Good(f32),
    Held(f32),
    Invalid,
}

// What a reading counts as, in mV or mA. Missing: Invalid, or a number that is out of range. It has a reading's three cases, so it is
// no Option.
#[derive(Clone, Copy, PartialEq, Eq)]
pub enum Measured {
    Good(u32),
    Held(u32),
    Missing,
}

// What is measured: it sets the range. The current's range goes by the module's rated current.
#[derive(Clone, Copy, PartialEq, Eq)]
pub enum Channel {
    Voltage,
    Current1A,
    Current5A,
}
