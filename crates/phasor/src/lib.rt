// A quantity as a pair, real and imaginary part: two readings, and signed whole thousandths (mV, mA) once both are Good and in
// range.
#![tactic(auto)]

ghost use Rattle.std.specs.Prelude.{◌≡◌, ◌*◌, ◌≤◌, ◌^◌, nat_abs};
ghost use Rattle.measure.specs.Readings.{limit_of};
ghost use Rattle.phasor.specs.Pairs.{fresh_of, with_sign, part_of, paired_of, vector_of, Within};
ghost use Rattle.phasor.specs.Parts.{PartJudges, magnitude_of, signed_of};

use measure::{Channel, Reading};
use measure_front::{Front, Passed, Quality};

// What the module hands over: the two parts, in V or A.
#[derive(Clone, Copy)]
pub struct Phasor {
    pub re: Reading,
    pub im: Reading,
}

// The pairs that a tick brings.
#[derive(Clone, Copy)]
pub struct Phasors {
    pub u_ab: Phasor,
    pub i_bus: Phasor,
    pub i_coupler: Phasor,
}

// The two numbers of a pair whose parts are both Good.
#[derive(Clone, Copy)]
struct Numbers {
    re: f32,
    im: f32,
}

// A pair in mV or mA.
#[derive(Clone, Copy, PartialEq, Eq)]
pub struct Vector {
    pub re: i64,
    pub im: i64,
}

// The numbers of a pair, if both parts are Good.
#[tactic(auto, unfolding(crate::specs::Pairs::fresh_of))]
fn both_good(p: Phasor) -> Option<Numbers>
    ensures { result ≡ fresh_of p }
{
    match (p.re, p.im) {
        (Reading::Good(re), Reading::Good(im)) => Some(Numbers { re, im }),
        _ => None,
    }
}

// A magnitude with its sign.
#[tactic(auto, using(crate::proofs::Laws::signs))]
fn with_sign(negative: bool, n: u32) -> i64
    ensures { (result ≡ with_sign negative n) × (nat_abs result ≤ 2 ^ 32) }
{
    if negative { -(n as i64) } else { n as i64 }
}

// A converted magnitude with its sign.
#[tactic(auto, unfolding(crate::specs::Parts::signed_of))]
fn signed(negative: bool, a: Option<u32>) -> Option<i64>
    ensures { result ≡ signed_of negative a }
{
    Some(with_sign(negative, a?))
}

// A number without its sign.
#[tactic(auto, unfolding(crate::specs::Parts::magnitude_of))]
fn magnitude(negative: bool, x: f32) -> f32
    ensures { result ≡ magnitude_of negative x }
{
    if negative { -x } else { x }
}

// The first step of a part: a reading's, with the sign taken off.
#[tactic(auto, using(crate::proofs::Parts::parts))]
fn judge_part(c: Channel, exponent: u8) -> Option<Passed>
    ensures { PartJudges c exponent result }
{
    measure_front::judge(
        c,
        Front {
            quality: Quality::Good,
            minus: false,
            exponent,
        },
    )
}

// One part: what its magnitude counts as, with the sign kept. Its fraction is looked at only if its exponent passes.
#[tactic(auto, using(crate::proofs::Parts::parts))]
fn measure_part(c: Channel, x: f32) -> Option<i64>
    ensures { result ≡ part_of (limit_of c) x }
{
    let f = measure_front::front_of(Reading::Good(x));
    let p = judge_part(c, f.exponent)?;
    signed(f.minus, measure_fraction::convert(p, magnitude(f.minus, x)))
}

// Two parts, each of which is needed.
#[tactic(auto, unfolding(crate::specs::Pairs::paired_of))]
fn paired(a: Option<i64>, b: Option<i64>) -> Option<Vector>
    ensures { result ≡ paired_of a b }
{
    Some(Vector { re: a?, im: b? })
}

// What a pair counts as; no part's magnitude is above the channel's limit.
pub fn measure_pair(c: Channel, p: Phasor) -> Option<Vector>
    ensures each { result ≡ vector_of (limit_of c) p }
    ensures within { Within (1000 * limit_of c) result }
{
    let n = both_good(p)?;
    paired(measure_part(c, n.re), measure_part(c, n.im))
}
