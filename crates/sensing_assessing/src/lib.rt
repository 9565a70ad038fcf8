// Rule 6: the voltage against the band around U_supp.
#![tactic(auto)]

ghost use Rattle.std.specs.Prelude.{◌≡◌};
ghost use Rattle.sensing_assessing.specs.Assessing.{u_of, assessed_of};

use busbar_level::Level;
use input::{Contacts, Readings};
use phasor::Phasors;
use slots::{COMPENSATION, SLOTS};

// The voltage's level, none where the voltage is missing; `far`: above U_set5.
#[derive(Clone, Copy)]
pub struct Assessed {
    pub level: Option<Level>,
    pub far: bool,
}

// The voltage U: at the end of the line if slot 3 is 2, else by the readings alone.
#[tactic(auto, using(common::proofs::Cases::cases), unfolding(crate::specs::Assessing::u_of))]
fn u_of(s: &[u32; SLOTS], x: Readings, p: Phasors) -> Option<i64>
    ensures { result ≡ u_of s.now x p }
{
    if s[COMPENSATION] == 2 {
        return line::voltage(s, p);
    }
    busbar_compensation::voltage(s, x.u_ab, x.i_bus, x.i_coupler)
}

// Rule 6.
#[tactic(auto, unfolding(crate::specs::Assessing::assessed_of))]
pub fn assess(s: &[u32; SLOTS], x: Readings, p: Phasors, c: Contacts) -> Assessed
    ensures { result ≡ assessed_of s.now x p c }
{
    let u = u_of(s, x, p);
    let u_supp = busbar_deviation::supply_voltage(s, c.u_supp2, c.u_supp3, c.u_supp4);
    Assessed {
        level: busbar_deviation::judge_level(s, u, u_supp),
        far: busbar_deviation::far_above(s, u),
    }
}
