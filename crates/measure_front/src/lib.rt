// The first step of a reading's conversion: it sees quality, sign and exponent, and no fraction.
#![tactic(auto)]

ghost use Rattle.std.specs.Prelude.{◌≡◌, false, ◌↔◌};
ghost use Rattle.measure.specs.Fields.{number_fraction};
ghost use Rattle.measure.specs.Readings.{limit_of};
ghost use Rattle.measure_front.specs.Fronts.{handed, reading_of, EveryFractionMissing, number_front, front_of, fraction_of, top_exponent};
ghost use Rattle.measure_front.specs.Judging.{Judges};

use measure::{Channel, Reading};

// How a reading was handed over.
#[derive(Clone, Copy, PartialEq, Eq)]
pub enum Quality {
    Good,
    Held,
    Invalid,
}

// What the module hands over before the fraction. Of an Invalid reading only the quality tells something.
#[derive(Clone, Copy, PartialEq, Eq)]
pub struct Front {
    pub quality: Quality,
    pub minus: bool,
    pub exponent: u8,
}

// A sign and an exponent that passed the first step, and the channel that they passed for. Only this crate can make one.
#[derive(Clone, Copy, PartialEq, Eq)]
pub struct Passed {
    channel: Channel,
    minus: bool,
    exponent: u8,
}

// A number's sign and exponent. A NaN's bits cannot be read; its exponent is 255.
#[tactic(auto, using(crate::proofs::Fronts::number_fronts))]
fn number_front(quality: Quality, x: f32) -> Front
    ensures each { result ≡ number_front quality x }
    ensures whole { reading_of result (number_fraction x) ≡ handed quality x }
{
    if x.is_nan() {
        return Front {
            quality,
            minus: false,
            exponent: 255,
        };
    }
    let bits: u32 = f32::to_bits(x);
    Front {
        quality,
        minus: bits >= 0x8000_0000,
        exponent: (bits % 0x8000_0000 / 0x80_0000) as u8,
    }
}

// A reading's front: with the fraction that comes after it, it is the whole reading.
#[tactic(auto, unfolding(crate::specs::Fronts::front_of, crate::specs::Fronts::fraction_of, crate::specs::Fronts::reading_of))]
pub fn front_of(r: Reading) -> Front
    ensures each { result ≡ front_of r }
    ensures whole { reading_of result (fraction_of r) ≡ r }
{
    match r {
        Reading::Good(x) => number_front(Quality::Good, x),
        Reading::Held(x) => number_front(Quality::Held, x),
        Reading::Invalid => Front {
            quality: Quality::Invalid,
            minus: false,
            exponent: 0,
        },
    }
}

// The exponent in which the limit lies: 200 is 1.5625 * 2^(134 - 127), and 40 is 1.25 * 2^(132 - 127).
#[tactic(auto, using(crate::proofs::FirstStep::tops))]
fn top_exponent(c: Channel) -> u8
    ensures { result ≡ top_exponent (limit_of c) }
{
    match c {
        Channel::Voltage => 134,
        Channel::Current1A => 132,
        Channel::Current5A => 134,
    }
}

// Whether some fraction counts: with a minus sign only that of -0.0, which has exponent 0; with the limit's own exponent some do, and
// with a higher one, 255 among them, none.
#[tactic(auto, using(crate::proofs::FirstStep::first_step))]
pub fn passes(c: Channel, f: Front) -> bool
    ensures { (result ≡ false) ↔ EveryFractionMissing (limit_of c) f }
{
    if f.quality == Quality::Invalid {
        return false;
    }
    if f.minus {
        return f.exponent == 0;
    }
    f.exponent <= top_exponent(c)
}

// The first step, None being missing. What it lets pass, the second step takes (`measure_fraction::convert`), and nothing else.
#[tactic(auto, unfolding(crate::specs::Judging::Judges))]
pub fn judge(c: Channel, f: Front) -> Option<Passed>
    ensures { Judges c f result }
{
    if passes(c, f) {
        Some(Passed {
            channel: c,
            minus: f.minus,
            exponent: f.exponent,
        })
    } else {
        None
    }
}

pub fn channel_of(p: Passed) -> Channel
    ensures { result ≡ p.channel }
{
    p.channel
}
