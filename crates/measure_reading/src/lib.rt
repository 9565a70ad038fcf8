// One measured reading: its front is judged first, and only what passes by its fraction.
#![tactic(auto)]

ghost use Rattle.std.specs.Prelude.{◌≡◌, ◌*◌};
ghost use Rattle.measure.specs.Readings.{limit_of, number_of, measured_of, AtMost};
ghost use Rattle.measure_reading.specs.Steps.{with_quality, counted_of};

use measure::{Channel, Measured, Reading};
use measure_front::Quality;

// A counted number with the quality that it was handed over with.
#[tactic(auto, unfolding(crate::specs::Steps::with_quality))]
fn with_quality(quality: Quality, n: u32) -> Measured
    ensures { result ≡ with_quality quality n }
{
    match quality {
        Quality::Good => Measured::Good(n),
        Quality::Held => Measured::Held(n),
        Quality::Invalid => Measured::Missing,
    }
}

// What a converted number counts as.
#[tactic(auto, unfolding(crate::specs::Steps::counted_of))]
fn counted(quality: Quality, a: Option<u32>) -> Measured
    ensures { result ≡ counted_of quality a }
{
    match a {
        None => Measured::Missing,
        Some(n) => with_quality(quality, n),
    }
}

// The number of a reading; 0 where it has none.
#[tactic(auto, unfolding(measure::specs::Readings::number_of))]
fn number_of(r: Reading) -> f32
    ensures { result ≡ number_of r }
{
    match r {
        Reading::Good(x) | Reading::Held(x) => x,
        Reading::Invalid => 0.0,
    }
}

// What a reading counts as; its number is never above the channel's limit. Its front comes first, and its fraction only if that passes.
#[tactic(auto, using(crate::proofs::Qualities::readings))]
pub fn measure(c: Channel, r: Reading) -> Measured
    ensures each { result ≡ measured_of (limit_of c) r }
    ensures within { AtMost (1000 * limit_of c) result }
{
    let f = measure_front::front_of(r);
    match measure_front::judge(c, f) {
        None => Measured::Missing,
        Some(p) => counted(f.quality, measure_fraction::convert(p, number_of(r))),
    }
}
