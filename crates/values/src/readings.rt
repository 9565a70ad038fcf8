// Readings and parts of pairs by their bit patterns, and the first step of a conversion.
use crate::rows::Row;
use measure::{Channel, Measured, Reading};
use measure_front::{Front, Quality};
use phasor::Phasor;
use std::io;

// The limit of a 1 A module's current, and of nothing else.
const LIMIT_1A: u32 = 40;

pub(crate) fn limited_to(limit: u32) -> Channel {
    if limit == LIMIT_1A {
        return Channel::Current1A;
    }
    Channel::Voltage
}

// The limit is 200 where the number is even, of a voltage and of a 5 A module's current, and 40 where it is odd.
pub(crate) fn channel(n: u64) -> Channel {
    match n % 4 {
        0 => Channel::Voltage,
        2 => Channel::Current5A,
        _ => Channel::Current1A,
    }
}

pub(crate) fn measured(c: Channel, r: Reading) -> Option<i64> {
    match measure_reading::measure(c, r) {
        Measured::Good(n) | Measured::Held(n) => Some(n as i64),
        Measured::Missing => None,
    }
}

// The real part of the pair of a float and 0.
pub(crate) fn part(c: Channel, x: f32) -> Option<i64> {
    let re = Reading::Good(x);
    let im = Reading::Good(0.0);
    phasor::measure_pair(c, Phasor { re, im }).map(|v| v.re)
}

fn quality_of(n: u32) -> Quality {
    match n {
        0 => Quality::Good,
        1 => Quality::Held,
        _ => Quality::Invalid,
    }
}

// 1 where the first step lets a number with this exponent pass, 0 where it is missing.
pub(crate) fn print_front<R: Print>(rt: &R, r: Row, exponent: u8) -> io::Result<()> {
    let f = Front {
        quality: quality_of(r.numbers[2]),
        minus: r.numbers[3] == 1,
        exponent,
    };
    // A byte as it is: a row has 256 of these, and a formatter for each runs four times the instructions.
    if measure_front::passes(channel(r.numbers[1] as u64), f) {
        rt.write_all(b"1")
    } else {
        rt.write_all(b"0")
    }
}
