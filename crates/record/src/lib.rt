// The regulator's record: what stands between two ticks. How a sheet starts it is `record_starting`, the limits that an accepted
// one keeps to are `record_limits`.
#![tactic(auto)]

use acting_accounting::Wear;
use command::Memory;
use drive::Drive;
use fault::Latch;
use organ::Organ;
use slots::SLOTS;

// What a tick leaves for the next, by the rule that keeps it: rule 5 the organs, rule 7 the drive, its fault and what ended moves
// leave, rule 9 its memory.
#[derive(Clone, Copy)]
pub struct State {
    pub organs: [Organ; 7],
    pub drive: Drive,
    pub latch: Latch,
    pub memory: Memory,
    pub wear: Wear,
}

// The record: the settings, which no tick changes, and the state.
#[derive(Clone, Copy)]
pub struct Regulator {
    pub settings: [u32; SLOTS],
    pub state: State,
}
