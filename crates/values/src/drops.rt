// U along a line's impedance, and by U_comp and the ratings.
ghost use Rattle.std.specs.Prelude.{◌<◌};

use crate::rows::Row;
use measure::{Measured, Reading};
use phasor::{Phasor, Phasors};

// A magnitude in V or A.
fn whole(n: u32) -> f32
    requires { n < 16777216 }
{
    n as f32 / 1000.0
}

// The float nearest to a part in mV or mA.
fn part(minus: bool, size: u32) -> Reading {
    let x = whole(size % 0x100_0000);
    if minus {
        return Reading::Good(-x);
    }
    Reading::Good(x)
}

// U with a 5 A module, the current being bus + coupler.
fn voltage_along(r: u32, x: u32, u_ab: Phasor, i_bus: Phasor, i_coupler: Phasor) -> Option<i64> {
    let mut s = [0u32; slots::SLOTS];
    s[slots::MODULE] = 1;
    s[slots::COMPENSATION_CURRENT] = 3;
    s[slots::RESISTANCE] = r;
    s[slots::REACTANCE] = x;
    let p = Phasors {
        u_ab,
        i_bus,
        i_coupler,
    };
    line::voltage(&s, p)
}

// What is left of a part without the coupler's share.
fn rest(size: u32, share: u32) -> u32 {
    size.saturating_sub(share)
}

fn pair(re: Reading, im: Reading) -> Phasor {
    Phasor { re, im }
}

// A row: R and X, the parts of U_AB and of the current; and the coupler's share of the current's parts.
pub(crate) fn along(w: Row) -> Option<i64> {
    let n = w.numbers;
    let minus = w.minus;
    let u_ab = pair(part(minus[2], n[2]), part(minus[3], n[3]));
    let i_bus = pair(
        part(minus[4], rest(n[4], n[6])),
        part(minus[5], rest(n[5], n[7])),
    );
    let i_coupler = pair(part(minus[4], n[6]), part(minus[5], n[7]));
    voltage_along(n[0], n[1], u_ab, i_bus, i_coupler)
}

// Generated parts go from -200,000 to 200,000, and as many impedances from 0 on.
const HIGHEST: u32 = 200_000;

const PARTS: u64 = 400_001;

fn impedance(n: u64) -> u32 {
    (n % PARTS) as u32
}

fn chance_part(n: u64) -> Reading {
    let d = impedance(n);
    if d < HIGHEST {
        return part(true, HIGHEST - d);
    }
    part(false, d - HIGHEST)
}

pub(crate) fn chance_along(n: [u64; 6]) -> Option<i64> {
    let u_ab = pair(chance_part(n[2]), chance_part(n[3]));
    let i_bus = pair(chance_part(n[4]), chance_part(n[5]));
    let i_coupler = pair(part(false, 0), part(false, 0));
    voltage_along(impedance(n[0]), impedance(n[1]), u_ab, i_bus, i_coupler)
}

// U by the module's slot, U_comp, the current transformer's rating and the breaker's, U_AB, I_bus and I_coupler; the current is
// bus - coupler.
fn voltage_by(n: [u32; 7]) -> Option<i64> {
    let mut s = [0u32; slots::SLOTS];
    s[slots::MODULE] = n[0];
    s[slots::COMPENSATION] = 1;
    s[slots::COMPENSATION_CURRENT] = 2;
    s[slots::U_COMP] = n[1];
    s[slots::CT_RATING] = n[2];
    s[slots::BREAKER_RATING] = n[3];
    let u_ab = Measured::Good(n[4]);
    busbar_compensation::voltage(&s, u_ab, Measured::Good(n[5]), Measured::Good(n[6]))
}

// A current, and the difference more where it is the larger of the two.
fn current(smaller: u32, difference: u32, larger: bool) -> u32 {
    if larger {
        return smaller.wrapping_add(difference);
    }
    smaller
}

// A row: the same numbers, but the difference of the two currents for the first of them, and the smaller one for the other.
pub(crate) fn compensated(w: Row) -> Option<i64> {
    let n = w.numbers;
    let minus = w.minus[5];
    let i_bus = current(n[6], n[5], !minus);
    let i_coupler = current(n[6], n[5], minus);
    voltage_by([n[0], n[1], n[2], n[3], n[4], i_bus, i_coupler])
}

// Generated steps of U_comp from 1 V on, ratings from 1 A on, and readings from 0 on.
const STEPS: u64 = 391;

const RATINGS: u64 = 20_000;

const READINGS: u64 = 200_001;

// With a 5 A module.
pub(crate) fn chance_compensated(n: [u64; 6]) -> Option<i64> {
    let u_comp = 1000 + 100 * (n[0] % STEPS) as u32;
    let ct = 1 + (n[1] % RATINGS) as u32;
    let breaker = 1 + (n[2] % RATINGS) as u32;
    let u_ab = (n[3] % READINGS) as u32;
    voltage_by([
        1,
        u_comp,
        ct,
        breaker,
        u_ab,
        (n[4] % READINGS) as u32,
        (n[5] % READINGS) as u32,
    ])
}
