// Checksums over generated numbers, which look like chance.
ghost use Rattle.std.specs.Prelude.{◌≡◌, ◌+◌, ◌*◌, ◌%◌};

use crate::rows::Kind;
use crate::{drops, readings};
use measure::Reading;
use recording_numbers::float_of;

// After some turns: where the row of such numbers goes on, and the checksum, which is below 1,000,003.
#[derive(Clone, Copy)]
pub(crate) struct Turn {
    pub(crate) seed: u64,
    pub(crate) sum: u64,
}

pub const START: Turn = Turn {
    seed: 12_345,
    sum: 7,
};

// The checksum with one number more.
pub(crate) fn add(sum: u64, n: u64) -> u64
    ensures { result ≡ (sum % 1000003 * 31 + n % 1000003) % 1000003 }
{
    (sum % 1_000_003 * 31 + n % 1_000_003) % 1_000_003
}

fn next(seed: u64) -> u64 {
    (seed % 0x8000_0000 * 1_103_515_245 + 12_345) % 0x8000_0000
}

// The next six.
fn next_six(seed: u64) -> [u64; 6] {
    let mut six = [0u64; 6];
    let mut last = seed;
    for n in six.iter_mut() {
        last = next(last);
        *n = last;
    }
    six
}

// Any pattern on each third turn, and on the others a number from 2^-11 to below 2^19.
fn pattern(i: u64, seed: u64) -> u32 {
    if i % 3 == 0 {
        return ((seed % 0x8000_0000 * 2 + i % 2) % 0x1_0000_0000) as u32;
    }
    (0x3A00_0000 + seed % 0x0F00_0000) as u32
}

// The same with a minus sign on two turns of five.
fn signed_pattern(i: u64, seed: u64) -> u32 {
    let bits = pattern(i, seed);
    if i % 5 < 2 {
        return bits % 0x8000_0000 + 0x8000_0000;
    }
    bits
}

// The value of one turn.
fn value_at(kind: Kind, i: u64, n: [u64; 6]) -> Option<i64> {
    let c = readings::channel(i);
    match kind {
        Kind::ManyReadings => readings::measured(c, Reading::Good(float_of(pattern(i, n[0])))),
        Kind::ManyParts => readings::part(c, float_of(signed_pattern(i, n[0]))),
        Kind::ManyAlong => drops::chance_along(n),
        _ => drops::chance_compensated(n),
    }
}

// What a number adds to the checksum: one below 0 half a million more, and a drop by U_comp an even number, or an odd one where it is
// below 0.
fn weight_of(kind: Kind, z: i64) -> u64 {
    let n = z.unsigned_abs() % 0x80_0000_0000;
    let drop = kind == Kind::ManyCompensated;
    if z < 0 {
        return if drop { 3 + 2 * n } else { 500_000 + n };
    }
    if drop { 2 + 2 * n } else { 2 + n }
}

fn weight(kind: Kind, v: Option<i64>) -> u64 {
    match v {
        None => 1,
        Some(z) => weight_of(kind, z),
    }
}

// One turn. Readings and parts take one number of the row, and the others six.
pub(crate) fn generated(kind: Kind, i: u64, t: Turn) -> Turn {
    let n = next_six(t.seed);
    let sum = add(t.sum, weight(kind, value_at(kind, i, n)));
    let seed = if matches!(kind, Kind::ManyReadings | Kind::ManyParts) {
        n[0]
    } else {
        n[5]
    };
    Turn { seed, sum }
}
