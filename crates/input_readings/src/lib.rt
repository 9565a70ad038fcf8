// What the six readings of a tick count as.
#![tactic(auto)]

ghost use Rattle.std.specs.Prelude.{◌≡◌};
ghost use Rattle.input.specs.Brought.{readings_of};

use input::{Input, Readings};
use measure::Channel;

// The current's range goes by the module.
#[tactic(auto, unfolding(input::specs::Brought::readings_of))]
pub fn measure_all(i: Input, five_ampere: bool) -> Readings
    ensures { result ≡ readings_of i five_ampere }
{
    let current = input::current_channel(five_ampere);
    Readings {
        u_ab: measure_reading::measure(Channel::Voltage, i.u_ab),
        u0: measure_reading::measure(Channel::Voltage, i.u0),
        u2: measure_reading::measure(Channel::Voltage, i.u2),
        i_high: measure_reading::measure(current, i.i_high),
        i_bus: measure_reading::measure(current, i.i_bus),
        i_coupler: measure_reading::measure(current, i.i_coupler),
    }
}
