// The voltage at the end of a line: U_AB as a pair, less the drop that the current makes along the line's impedance.
#![tactic(auto)]

ghost use Rattle.std.specs.Prelude.{◌≡◌, ◌≤◌, ◌^◌, nat_abs};
ghost use Rattle.phasor.specs.Pairs.{Within};
ghost use Rattle.busbar_current.specs.Current.{most_reading, most_current};
ghost use Rattle.line.specs.Along.{most_impedance, most_product, most_drop, most_remains, scaled_of, drop_re, drop_im, remains_of, squares_of, magnitude_of, far_end_of, along_of};

use measure::Channel;
use phasor::{Phasors, Vector};
use slots::{REACTANCE, RESISTANCE, SLOTS};

// 400 Ω: no sheet that is taken has more.
const MOST_IMPEDANCE: u32 = 400_000;

// A drop in mV by a product in µV: √3 times as much, rounded toward zero.
#[tactic(auto, using(crate::proofs::Bounds::scaling))]
fn scaled(product: i64) -> i64
    requires { nat_abs product ≤ most_product }
    ensures { (result ≡ scaled_of product) × (nat_abs result ≤ most_drop) }
{
    product * 1_732_051 / 1_000_000_000
}

// R and X, neither above what a sheet can hold.
#[derive(Clone, Copy)]
struct Impedance {
    r: u32,
    x: u32,
    ghost small: { (r ≤ most_impedance) × (x ≤ most_impedance) },
}

// The drop that a current makes, part by part.
#[tactic(auto, using(crate::proofs::Bounds::dropping))]
fn line_drop(z: Impedance, i: Vector) -> Vector
    requires { (nat_abs i.re ≤ most_current) × (nat_abs i.im ≤ most_current) }
    ensures re { (result.re ≡ drop_re z.r z.x i.re i.im) × (nat_abs result.re ≤ most_drop) }
    ensures im { (result.im ≡ drop_im z.r z.x i.re i.im) × (nat_abs result.im ≤ most_drop) }
{
    Vector {
        re: scaled((z.r as i64) * i.re - (z.x as i64) * i.im),
        im: scaled((z.r as i64) * i.im + (z.x as i64) * i.re),
    }
}

// The sum of the squares.
#[tactic(auto, using(crate::proofs::Bounds::squaring))]
fn squares(re: i64, im: i64) -> u64
    requires { (nat_abs re ≤ most_remains) × (nat_abs im ≤ most_remains) }
    ensures { (result ≡ squares_of re im) × (result ≤ 2 ^ 61) }
{
    (re * re + im * im) as u64
}

// What remains of U_AB behind the drop, missing if either pair is.
#[tactic(auto, using(crate::proofs::Parts::remaining))]
fn remains(z: Impedance, u: Option<Vector>, i: Option<Vector>) -> Option<Vector>
    requires { Within most_reading u × Within most_current i }
    ensures { result ≡ remains_of z.r z.x u i }
{
    let (u, i) = (u?, i?);
    let drop = line_drop(z, i);
    Some(Vector {
        re: u.re - drop.re,
        im: u.im - drop.im,
    })
}

// The magnitude of what remains.
#[tactic(auto, using(crate::proofs::Parts::magnitudes))]
fn magnitude(v: Option<Vector>) -> Option<i64>
    requires { Within most_remains v }
    ensures { result ≡ magnitude_of v }
{
    let v = v?;
    Some(root::root(squares(v.re, v.im)) as i64)
}

// U by the pairs as they count. An impedance above what a sheet can hold is missing.
#[tactic(auto, using(crate::proofs::Made::ends))]
fn far_end(s: &[u32; SLOTS], u: Option<Vector>, i: Option<Vector>) -> Option<i64>
    requires { Within most_reading u × Within most_current i }
    ensures { result ≡ far_end_of s.now u i }
{
    let r = s[RESISTANCE];
    let x = s[REACTANCE];
    if r <= MOST_IMPEDANCE && x <= MOST_IMPEDANCE {
        magnitude(remains(Impedance { r, x }, u, i))
    } else {
        None
    }
}

// U along the line.
#[tactic(auto, using(crate::proofs::Made::stages))]
pub fn voltage(s: &[u32; SLOTS], p: Phasors) -> Option<i64>
    ensures { result ≡ along_of s.now p }
{
    let u = phasor::measure_pair(Channel::Voltage, p.u_ab);
    far_end(s, u, line_current::current(s, p))
}
