// Worked values of the readings and of their first step, of pairs, of roots, of the drops along a line and by U_comp, of the setting
// sheet and of the tap. `stdin` has their rows, and says how a row is written. `stdout` has what the second program,
// `rust/reference`, prints of the same values, so a run that differs shows that one of the two programs is wrong.
#![tactic(auto)]

mod chance;
mod drops;
mod print;
mod readings;
mod rows;
mod sheets;

use chance::Turn;
use measure::Reading;
use rows::{Kind, Row};
use std::io;

// What is asked of a row, where it is one value.
fn value_of(r: Row) -> Option<i64> {
    let c = readings::limited_to(r.numbers[0]);
    let x = recording_numbers::float_of(r.numbers[1]);
    match r.kind {
        Kind::Reading => readings::measured(c, Reading::Good(x)),
        Kind::HeldReading => readings::measured(c, Reading::Held(x)),
        Kind::Part => readings::part(c, x),
        Kind::Root => Some((root::root(r.last) % 0x1_0000_0000) as i64),
        Kind::Along => drops::along(r),
        _ => drops::compensated(r),
    }
}

// The turns of a row that tries every byte.
const BYTES: usize = 256;

// One turn of a row that has many.
fn turned<R: Print>(rt: &R, bytes: &[u8], r: Row, t: Turn, i: usize) -> io::Result<Turn> {
    match r.kind {
        Kind::Front => readings::print_front(rt, r, (i % BYTES) as u8)?,
        Kind::Codes => sheets::print_code(rt, bytes, r, (i % BYTES) as u8)?,
        Kind::Slots => return sheets::tried(rt, bytes, r, t, i),
        _ => return Ok(chance::generated(r.kind, i as u64, t)),
    }
    Ok(t)
}

fn print_turns<R: Print>(rt: &R, bytes: &[u8], r: Row, turns: usize) -> io::Result<Turn> {
    let mut t = chance::START;
    for i in 0..turns {
        t = turned(rt, bytes, r, t, i)?;
    }
    Ok(t)
}

// What a row prints. One that keeps or sets numbers, and one without a letter, print nothing.
fn print_row<R: Print>(rt: &R, bytes: &[u8], r: Row) -> io::Result<()> {
    match r.kind {
        Kind::Nothing | Kind::Keep | Kind::Change => {}
        Kind::Sheet => sheets::print_answer(rt, bytes, r)?,
        Kind::Slots => {
            print_turns(rt, bytes, r, sheets::TURNS)?;
        }
        Kind::Codes => {
            print_turns(rt, bytes, r, BYTES)?;
        }
        Kind::Front => {
            rows::print_text(rt, bytes, r)?;
            print_turns(rt, bytes, r, BYTES)?;
            println!(rt)?;
        }
        Kind::ManyReadings | Kind::ManyParts | Kind::ManyAlong | Kind::ManyCompensated => {
            rows::print_text(rt, bytes, r)?;
            let sum = print_turns(rt, bytes, r, r.numbers[0] as usize)?.sum;
            println!(rt; "{sum}")?;
        }
        _ => {
            rows::print_text(rt, bytes, r)?;
            print::value(rt, value_of(r))?;
        }
    }
    Ok(())
}

// The most bytes of the rows.
const ROWS: usize = 65_536;

fn main(rt: HostRuntime) -> io::Result<()> {
    let mut space = [0u8; ROWS];
    let got = files::fill(&mut rt.stdin(), &mut space).got;
    rows::print_rows(&rt, &space[..got])
}
