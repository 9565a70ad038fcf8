// Rules 3 to 6: what is there. Each rule, called with what it needs of the record, the sheet and the rules before it.
#![tactic(auto)]

ghost use Rattle.std.specs.Prelude.{◌≡◌};
ghost use Rattle.sensing.specs.Sensing.{sensed_of};

use input::{Contacts, Input};
use organ::{Organ, Organs};
use sensing_assessing::Assessed;
use sensing_observing::Observed;
use slots::SLOTS;

#[derive(Clone, Copy)]
pub struct Sensed {
    pub observed: Observed,
    pub organs: Organs,
    pub assessed: Assessed,
}

// Rules 3 to 6. `organs` and `counted`, the counted tap, are those of the record.
pub fn sense(s: &[u32; SLOTS], organs: [Organ; 7], counted: u32, i: Input, c: Contacts) -> Sensed
    ensures { result ≡ sensed_of s.now organs counted i c }
{
    let observed = sensing_observing::observe(s, i, c.breaker_closed, counted);
    let readings = observed.readings;
    Sensed {
        observed,
        organs: sensing_protecting::protect(s, organs, readings, observed.section),
        assessed: sensing_assessing::assess(s, readings, i.phasors, c),
    }
}
