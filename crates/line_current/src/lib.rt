// The current along the line, as a pair: slot 4 picks it of two, part by part.
#![tactic(auto)]

ghost use Rattle.std.specs.Prelude.{◌≡◌};
ghost use Rattle.line_current.specs.Pair.{current_of};

use phasor::{Phasors, Vector};
use slots::{MODULE, SLOTS};

// The current, of the pairs as the module measures them.
#[tactic(auto, using(crate::proofs::Parts::currents))]
pub fn current(s: &[u32; SLOTS], p: Phasors) -> Option<Vector>
    ensures { result ≡ current_of s.now p }
{
    let amperes = input::current_channel(s[MODULE] == 1);
    let bus = phasor::measure_pair(amperes, p.i_bus);
    let coupler = phasor::measure_pair(amperes, p.i_coupler);
    busbar_current::pick(s, bus, coupler)
}
