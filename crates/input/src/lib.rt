// What a tick brings: six readings, three pairs of readings, the contacts and keys, the BCD lines and the sensor byte.
#![tactic(auto)]

ghost use Rattle.std.specs.Prelude.{◌≡◌};
ghost use Rattle.input.specs.Brought.{contacts_of, current_of};

use keys::{Buttons, Keys};
use measure::{Channel, Measured, Reading};
use phasor::Phasors;

#[derive(Clone, Copy)]
pub struct Input {
    pub u_ab: Reading,
    pub u0: Reading,
    pub u2: Reading,
    pub i_high: Reading,
    pub i_bus: Reading,
    pub i_coupler: Reading,
    pub phasors: Phasors,
    pub contacts: u32,
    pub bcd: u8,
    pub sensor: u8,
}

// The contacts and keys, in the order of their bits from bit 0 on, but for the mode, which stands last.
#[derive(Clone, Copy)]
pub struct Contacts {
    pub breaker_closed: bool,
    pub switching: bool,
    pub supply_off: bool,
    pub oil_cold: bool,
    pub oil_low: bool,
    pub oil_high: bool,
    pub end_up: bool,
    pub end_down: bool,
    pub overcurrent: bool,
    pub external_block: bool,
    pub raise_block: bool,
    pub lower_block: bool,
    pub reset: bool,
    pub out: bool,
    pub automatic: bool,
    pub local_drive: bool,
    pub u_supp2: bool,
    pub u_supp3: bool,
    pub u_supp4: bool,
    pub keys: Keys,
}

// The six readings as they count, 3U0 being `u0`.
#[derive(Clone, Copy)]
pub struct Readings {
    pub u_ab: Measured,
    pub u0: Measured,
    pub u2: Measured,
    pub i_high: Measured,
    pub i_bus: Measured,
    pub i_coupler: Measured,
}

// The bits of the contacts' number; those from 24 on are ignored.
pub fn decode_contacts(n: u32) -> Contacts
    ensures { result ≡ contacts_of n }
{
    Contacts {
        breaker_closed: (n >> 0) % 2 == 1,
        switching: (n >> 1) % 2 == 1,
        supply_off: (n >> 2) % 2 == 1,
        oil_cold: (n >> 3) % 2 == 1,
        oil_low: (n >> 4) % 2 == 1,
        oil_high: (n >> 5) % 2 == 1,
        end_up: (n >> 6) % 2 == 1,
        end_down: (n >> 7) % 2 == 1,
        overcurrent: (n >> 8) % 2 == 1,
        external_block: (n >> 9) % 2 == 1,
        raise_block: (n >> 10) % 2 == 1,
        lower_block: (n >> 11) % 2 == 1,
        reset: (n >> 12) % 2 == 1,
        out: (n >> 13) % 2 == 1,
        automatic: (n >> 14) % 2 == 1,
        local_drive: (n >> 15) % 2 == 1,
        u_supp2: (n >> 16) % 2 == 1,
        u_supp3: (n >> 17) % 2 == 1,
        u_supp4: (n >> 18) % 2 == 1,
        keys: Keys {
            panel: Buttons {
                raise: (n >> 19) % 2 == 1,
                lower: (n >> 20) % 2 == 1,
            },
            dispatcher: Buttons {
                raise: (n >> 22) % 2 == 1,
                lower: (n >> 23) % 2 == 1,
            },
            remote: (n >> 21) % 2 == 1,
        },
    }
}

// The range of a current, by the module's rated current.
pub fn current_channel(five_ampere: bool) -> Channel
    ensures { result ≡ current_of five_ampere }
{
    if five_ampere {
        Channel::Current5A
    } else {
        Channel::Current1A
    }
}
