// Rule 8, the blocks.
#![tactic(auto)]

ghost use Rattle.std.specs.Prelude.{◌≡◌};
ghost use Rattle.acting_judging.specs.Judging.{blocked_of};

use blocks::{Blocks, Found};
use busbar_level::Level;
use fault::Fault;
use input::Contacts;
use slots::SLOTS;

// What rules 3 to 6 have found, as rules 7 and 8 go by it.
#[derive(Clone, Copy)]
pub struct Finding {
    pub section: bool,
    pub level: Option<Level>,
    pub trips: [bool; 7],
    pub tap: u32,
}

// Rule 8, with the fault `f`.
#[tactic(auto, unfolding(crate::specs::Judging::blocked_of))]
pub fn block(s: &[u32; SLOTS], c: Contacts, f: Option<Fault>, x: Finding) -> Blocks
    ensures { result ≡ blocked_of s.now c f x }
{
    let trips = x.trips;
    let found = Found {
        fault: fault::is_fault(f),
        section: x.section,
        u_missing: busbar_level::is_missing(x.level),
        trips,
        tap: x.tap,
    };
    blocks::judge_blocks(s, c, found)
}
