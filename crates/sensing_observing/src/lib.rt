// What the tick brings, as it counts; rule 3, the section; rule 4, the tap.
#![tactic(auto)]

ghost use Rattle.std.specs.Prelude.{◌≡◌};
ghost use Rattle.sensing_observing.specs.Observing.{observed_of};

use input::{Input, Readings};
use slots::{MODULE, SLOTS};
use tap_position::TapError;

#[derive(Clone, Copy)]
pub struct Observed {
    pub readings: Readings,
    pub section: bool,
    // The tap, 0 where none is read, or what is wrong about it.
    pub position: Result<u32, TapError>,
}

// `counted` is the counted tap as the tick starts.
pub fn observe(s: &[u32; SLOTS], i: Input, breaker_closed: bool, counted: u32) -> Observed
    ensures { result ≡ observed_of s.now i breaker_closed counted }
{
    let readings = input_readings::measure_all(i, s[MODULE] == 1);
    Observed {
        readings,
        section: busbar_section::section(s, breaker_closed, readings.i_bus),
        position: tap_position::read_position(s, i.bcd, i.sensor, counted),
    }
}
