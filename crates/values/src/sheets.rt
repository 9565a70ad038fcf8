// The check of the setting sheet whose numbers are kept, and the codes of BCD lines. After the sheet's numbers stand those that are
// tried at each slot.
ghost use Rattle.std.specs.Prelude.{◌<◌};
ghost use Rattle.slots.specs.Slots.{slots};

use crate::chance::Turn;
use crate::rows::{MOST, Row};
use crate::{chance, rows};
use sheet::Refusal;
use slots::{N_L, N_R, SLOTS, TAP_SOURCE};
use std::io;
use tap_position::TapError;

// The answer to the first n numbers, or to as many as there are.
fn judged(list: &[u32], n: usize) -> Result<[u32; SLOTS], Refusal> {
    sheet_judging::check_sheet(&list[..n.min(list.len())])
}

// The answer to as many of the kept numbers as the row says.
pub(crate) fn print_answer<R: Print>(rt: &R, bytes: &[u8], r: Row) -> io::Result<()> {
    let at = r.kept;
    if at >= MOST {
        return Ok(());
    }
    let answer = judged(&r.numbers, r.numbers[at] as usize);
    let number = sheet::number(&answer);
    let slot = sheet::slot(&answer);
    rows::print_text(rt, bytes, r)?;
    println!(rt; "{number} {slot}")
}

// What the answer's number counts for in the checksum.
const NUMBER: u64 = 1_000;

// What the answer to the sheet with one slot set adds to the checksum.
fn weight(numbers: [u32; MOST], i: usize, x: u32) -> u64
    requires { i < slots }
{
    let mut list = numbers;
    list[i] = x;
    let answer = judged(&list, SLOTS);
    let number = sheet::number(&answer) as u64;
    let slot = sheet::slot(&answer) as u64;
    number * NUMBER + slot + 1
}

// How many numbers are tried at each slot.
const TRIED: usize = 51;

pub const TURNS: usize = SLOTS * TRIED;

// One number tried at one slot; after the last one there the slot is printed with the checksum.
pub(crate) fn tried<R: Print>(rt: &R, bytes: &[u8], r: Row, t: Turn, i: usize) -> io::Result<Turn> {
    let numbers = r.numbers;
    let slot = i / TRIED % SLOTS;
    let sum = chance::add(t.sum, weight(numbers, slot, numbers[SLOTS + i % TRIED]));
    if i % TRIED == TRIED - 1 {
        rows::print_text(rt, bytes, r)?;
        println!(rt; "{slot} {sum}")?;
    }
    Ok(Turn { sum, ..t })
}

// The last tap.
const LAST: u32 = 40;

// A byte of BCD lines, with taps from 1 on: tap, wrong code, range error.
pub(crate) fn print_code<R: Print>(rt: &R, bytes: &[u8], r: Row, lines: u8) -> io::Result<()> {
    let mut s = [0u32; SLOTS];
    s[TAP_SOURCE] = 1;
    s[N_L] = 1;
    s[N_R] = LAST;
    let p = tap_position::read_position(&s, lines, 0, 20);
    rows::print_text(rt, bytes, r)?;
    let tap = p.unwrap_or(0);
    let wrong_code = (p == Err(TapError::WrongCode)) as u8;
    let range_error = (p == Err(TapError::OutOfRange)) as u8;
    println!(rt; "{lines} {tap} {wrong_code} {range_error}")
}
