// What a tick brings, as the host hands it over.
#![tactic(auto)]

ghost use Rattle.std.specs.Prelude.{◌≡◌};
ghost use Rattle.image_input.specs.Bringing.{reading_of, phasor_of, phasors_of, input_of};

use input::Input;
use measure::Reading;
use phasor::{Phasor, Phasors};

// `quality`: 0 Good, 1 Held; any other number is Invalid, and `value` is not looked at. `value` is in V or A, and may be any
// float.
#[repr(C)]
#[derive(Clone, Copy)]
pub struct Sample {
    pub quality: u32,
    pub value: f32,
}

// The six readings, and then the real and the imaginary part of U_AB, I_bus and I_coupler.
#[repr(C)]
#[derive(Clone, Copy)]
pub struct Brought {
    pub u_ab: Sample,
    pub u0: Sample,
    pub u2: Sample,
    pub i_high: Sample,
    pub i_bus: Sample,
    pub i_coupler: Sample,
    pub u_ab_re: Sample,
    pub u_ab_im: Sample,
    pub i_bus_re: Sample,
    pub i_bus_im: Sample,
    pub i_coupler_re: Sample,
    pub i_coupler_im: Sample,
    pub contacts: u32,
    pub bcd: u8,
    pub sensor: u8,
}

impl From<Sample> for Reading {
    ghost from_gives = { λ s r. r ≡ reading_of s };

    fn from(s: Sample) -> Reading {
        quality::reading_by(s.quality, s.value)
    }
}

#[tactic(auto, unfolding(crate::specs::Bringing::phasor_of))]
fn phasor_of(re: Sample, im: Sample) -> Phasor
    ensures { result ≡ phasor_of re im }
{
    Phasor {
        re: re.into(),
        im: im.into(),
    }
}

impl From<Brought> for Phasors {
    ghost from_gives = { λ b p. p ≡ phasors_of b };

    #[tactic(auto, unfolding(crate::specs::Bringing::phasors_of))]
    fn from(b: Brought) -> Phasors {
        Phasors {
            u_ab: phasor_of(b.u_ab_re, b.u_ab_im),
            i_bus: phasor_of(b.i_bus_re, b.i_bus_im),
            i_coupler: phasor_of(b.i_coupler_re, b.i_coupler_im),
        }
    }
}

impl From<Brought> for Input {
    ghost from_gives = { λ b i. i ≡ input_of b };

    #[tactic(auto, unfolding(crate::specs::Bringing::input_of))]
    fn from(b: Brought) -> Input {
        Input {
            u_ab: b.u_ab.into(),
            u0: b.u0.into(),
            u2: b.u2.into(),
            i_high: b.i_high.into(),
            i_bus: b.i_bus.into(),
            i_coupler: b.i_coupler.into(),
            phasors: b.into(),
            contacts: b.contacts,
            bcd: b.bcd,
            sensor: b.sensor,
        }
    }
}
