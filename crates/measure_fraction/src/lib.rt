// The second step of a reading's conversion, which alone sees the fraction: the range, and the nearest whole thousandth (mV, mA) of the
// number, by its exact value.
#![tactic(auto)]

ghost use Rattle.std.specs.Prelude.{◌≡◌, T};
ghost use Rattle.measure.specs.Exact.{in_range, thousandths};
ghost use Rattle.measure.specs.Readings.{most_volts, limit_of, converted_of};
ghost use Rattle.measure_front.specs.Judging.{JudgedBy};

use measure::Channel;
use measure_front::Passed;

const MOST_VOLTS: u16 = 200;

// Of a 1 A module; a 5 A one has five times as much.
const MOST_AMPERES: u16 = 40;

// The upper end of the range, in V or A.
fn limit(c: Channel) -> u16
    ensures { result ≡ limit_of c }
{
    match c {
        Channel::Voltage => MOST_VOLTS,
        Channel::Current1A => MOST_AMPERES,
        Channel::Current5A => 5 * MOST_AMPERES,
    }
}

// The whole number nearest to 1000 * x, a half going up: the whole number of half thousandths in x, and one more, halved. x is
// digits / 2^(150 - exponent); where the exponent is below 116, x is below 2^-11, which is less than half a thousandth, a
// subnormal number among them, and gives 0.
fn whole_thousandths(x: f32) -> u32
    requires { T (in_range most_volts x) }
    ensures { result ≡ thousandths x }
{
    let bits: u32 = f32::to_bits(x);
    let exponent = bits % 0x8000_0000 / 0x80_0000;
    if exponent < 116 {
        return 0;
    }
    let digits = (bits % 0x80_0000 + 0x80_0000) as u64;
    let halves = (2000 * digits) >> (150 - exponent);
    ((halves + 1) / 2) as u32
}

// What a number counts as whose sign and exponent are those that passed the first step; of any other nothing is promised. Two
// comparisons decide the range, outside of which there is none: a number below 0 fails the first, while -0.0 counts as 0; one above the
// limit fails the second.
#[tactic(auto, using(crate::proofs::Second::second))]
pub fn convert(p: Passed, x: f32) -> Option<u32>
    ensures { JudgedBy p x → result ≡ converted_of (limit_of p.channel) x }
{
    let top = limit(measure_front::channel_of(p));
    if x >= 0.0 && x <= top as f32 {
        Some(whole_thousandths(x))
    } else {
        None
    }
}
