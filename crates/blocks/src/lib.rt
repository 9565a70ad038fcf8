// Rule 8: what each tick blocks.
#![tactic(auto)]

ghost use Rattle.std.specs.Prelude.{◌≡◌};
ghost use Rattle.blocks.specs.Blocked.{common_of, end_of, organs_automatic_of, any_trip_of, tap_lost_of, blocks_of, opposed_of};

use input::Contacts;
use slots::{
    CURRENT_ORGANS, END_TAP_BLOCK, N_L, N_R, ORGANS_BLOCK_MANUAL, SLOTS, TAP_SOURCE, VOLTAGE_ORGANS,
};
use ways::Direction;

// What the rules before have found on this tick.
#[derive(Clone, Copy)]
pub struct Found {
    pub fault: bool,
    pub section: bool,
    pub u_missing: bool,
    pub trips: [bool; 7],
    pub tap: u32,
}

// Automatic and manual commands, and each direction with the common blocks.
#[derive(Clone, Copy)]
pub struct Blocks {
    pub automatic: bool,
    pub manual: bool,
    pub raise: bool,
    pub lower: bool,
}

fn common_block(c: Contacts, fault: bool) -> bool
    ensures { result ≡ common_of c fault }
{
    c.supply_off
        | c.oil_cold
        | c.oil_low
        | c.oil_high
        | c.overcurrent
        | c.external_block
        | c.local_drive
        | fault
}

// Whether the tap is the end tap that a direction runs into, and blocked there: `end`, or `other` where the taps are counted
// reversed.
#[tactic(auto, unfolding(crate::specs::Blocked::end_of))]
fn at_end(s: &[u32; SLOTS], tap: u32, end: u32, other: u32) -> bool
    ensures { result ≡ end_of s.now tap end other }
{
    let reversed = s[TAP_SOURCE] == 4;
    let block = s[END_TAP_BLOCK] == 1;
    block & ((!reversed & (tap == end)) | (reversed & (tap == other)))
}

// The trips that block automatic commands.
#[tactic(auto, unfolding(crate::specs::Blocked::organs_automatic_of))]
fn organs_block_automatic(s: &[u32; SLOTS], t: [bool; 7]) -> bool
    ensures { result ≡ organs_automatic_of s.now t }
{
    let current = t[..3].contains(&true);
    let voltage = t[3..].contains(&true);
    ((s[CURRENT_ORGANS] == 0) & current) | ((s[VOLTAGE_ORGANS] == 0) & voltage)
}

#[tactic(auto, unfolding(crate::specs::Blocked::any_trip_of))]
fn any_trip(t: [bool; 7]) -> bool
    ensures { result ≡ any_trip_of t }
{
    t.contains(&true)
}

// Tap 0 where a tap is read and its end taps block.
#[tactic(auto, unfolding(crate::specs::Blocked::tap_lost_of))]
fn tap_lost(s: &[u32; SLOTS], tap: u32) -> bool
    ensures { result ≡ tap_lost_of s.now tap }
{
    (tap == 0) & (s[END_TAP_BLOCK] == 1) & (s[TAP_SOURCE] != 0)
}

// Rule 8.
#[tactic(auto, using(crate::proofs::Laws::blocks_made))]
pub fn judge_blocks(s: &[u32; SLOTS], c: Contacts, f: Found) -> Blocks
    ensures { result ≡ blocks_of s.now c f }
{
    let common = common_block(c, f.fault);
    let manual_too = s[ORGANS_BLOCK_MANUAL] == 1;
    Blocks {
        automatic: common
            | !f.section
            | f.u_missing
            | organs_block_automatic(s, f.trips)
            | tap_lost(s, f.tap),
        manual: common | (manual_too & any_trip(f.trips)),
        raise: common | c.end_up | c.raise_block | at_end(s, f.tap, s[N_R], s[N_L]),
        lower: common | c.end_down | c.lower_block | at_end(s, f.tap, s[N_L], s[N_R]),
    }
}

// Whether the direction of a command is blocked.
pub fn opposes(b: Blocks, d: Direction) -> bool
    ensures { result ≡ opposed_of b d }
{
    match d {
        Direction::Raise => b.raise,
        Direction::Lower => b.lower,
    }
}
