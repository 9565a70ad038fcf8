// The rows of `stdin`, a line each: their numbers are read, and at its end a row is printed with its answer.

use std::io;

// The most numbers of a row, with those that are kept from rows before it.
pub const MOST: usize = 128;

// What a row asks for.
#[derive(Clone, Copy, PartialEq, Eq)]
pub(crate) enum Kind {
    Nothing,
    Keep,
    Change,
    Reading,
    HeldReading,
    Part,
    Root,
    Along,
    Compensated,
    ManyReadings,
    ManyParts,
    ManyAlong,
    ManyCompensated,
    Front,
    Sheet,
    Slots,
    Codes,
}

// By a row's last letter. One that no other kind has asks for what `d` asks.
impl From<u8> for Kind {
    fn from(letter: u8) -> Kind {
        match letter {
            b'k' => Kind::Keep,
            b'c' => Kind::Change,
            b'r' => Kind::Reading,
            b'h' => Kind::HeldReading,
            b'p' => Kind::Part,
            b'q' => Kind::Root,
            b'a' => Kind::Along,
            b'R' => Kind::ManyReadings,
            b'P' => Kind::ManyParts,
            b'A' => Kind::ManyAlong,
            b'D' => Kind::ManyCompensated,
            b'f' => Kind::Front,
            b's' => Kind::Sheet,
            b't' => Kind::Slots,
            b'b' => Kind::Codes,
            _ => Kind::Compensated,
        }
    }
}

// Where the next byte stands: between words, behind a minus sign or not, in a number, in a word, behind the mark of a comment.
#[derive(Clone, Copy)]
enum Place {
    Between { minus: bool },
    Number { minus: bool, value: u64 },
    Word,
    Comment,
}

// What is asked; a row's numbers, after those that are kept, and which of them are below 0; the last number, whole; how many are kept
// and how many there are; where the row starts and where its bar stands; and where its next byte does. The numbers are no structs with
// their signs, since those that are kept are a sheet's list.
#[derive(Clone, Copy)]
pub(crate) struct Row {
    pub(crate) kind: Kind,
    pub(crate) numbers: [u32; MOST],
    pub(crate) minus: [bool; MOST],
    pub(crate) kept: usize,
    pub(crate) last: u64,
    count: usize,
    start: usize,
    bar: usize,
    place: Place,
}

// A number with one digit more: a tenth of 2^64 is the most that ten times it fits.
fn longer(value: u64, digit: u8) -> u64 {
    (value % 1_844_674_407_370_955_162 * 10).wrapping_add((digit % 16) as u64)
}

// A digit behind a letter belongs to the word.
fn digit(r: Row, byte: u8) -> Row {
    let place = match r.place {
        Place::Between { minus } => Place::Number {
            minus,
            value: longer(0, byte),
        },
        Place::Number { minus, value } => Place::Number {
            minus,
            value: longer(value, byte),
        },
        Place::Word => Place::Word,
        Place::Comment => Place::Comment,
    };
    Row { place, ..r }
}

fn letter(r: Row, byte: u8) -> Row {
    Row {
        kind: Kind::from(byte),
        place: Place::Word,
        ..r
    }
}

// The row with one number more, where there is room for it.
fn more(r: Row, minus: bool, value: u64) -> Row {
    let at = r.count;
    let mut row = r;
    if at < MOST {
        row.numbers[at] = (value % 0x1_0000_0000) as u32;
        row.minus[at] = minus;
        row.last = value;
        row.count = at + 1;
    }
    row
}

// A number or a word is at its end.
fn closed(r: Row, byte: u8) -> Row {
    let mut row = match r.place {
        Place::Number { minus, value } => more(r, minus, value),
        _ => r,
    };
    row.place = match byte {
        b'#' => Place::Comment,
        _ => Place::Between {
            minus: byte == b'-',
        },
    };
    row
}

fn barred(r: Row, i: usize) -> Row {
    Row {
        bar: i,
        ..closed(r, b' ')
    }
}

fn taken(r: Row, byte: u8, i: usize) -> Row {
    match byte {
        b'0'..=b'9' => digit(r, byte),
        b'A'..=b'z' => letter(r, byte),
        b'|' => barred(r, i),
        _ => closed(r, byte),
    }
}

// The number of a slot is another in the rows below.
fn set(r: Row) -> Row {
    let at = r.kept;
    if at >= MOST - 1 {
        return r;
    }
    let slot = r.numbers[at] as usize;
    if slot >= MOST {
        return r;
    }
    let mut row = r;
    row.numbers[slot] = r.numbers[at + 1];
    row
}

// The row after this one: without a letter it asks for nothing.
fn fresh(r: Row, start: usize) -> Row {
    let mut row = r;
    match r.kind {
        Kind::Change => row = set(r),
        Kind::Keep => row.kept = r.count,
        _ => {}
    }
    Row {
        kind: Kind::Nothing,
        count: row.kept,
        start,
        bar: start,
        place: Place::Between { minus: false },
        ..row
    }
}

fn step<R: Print>(rt: &R, r: Row, bytes: &[u8], byte: u8, i: usize) -> io::Result<Row> {
    if byte == b'\n' {
        let row = closed(r, byte);
        crate::print_row(rt, bytes, row)?;
        return Ok(fresh(row, i.wrapping_add(1)));
    }
    if matches!(r.place, Place::Comment) {
        return Ok(r);
    }
    Ok(taken(r, byte, i))
}

// What stands before the bar.
pub(crate) fn print_text<R: Print>(rt: &R, bytes: &[u8], r: Row) -> io::Result<()> {
    match bytes.get(r.start..r.bar) {
        Some(text) => rt.write_all(text),
        None => Ok(()),
    }
}

pub(crate) fn print_rows<R: Print>(rt: &R, bytes: &[u8]) -> io::Result<()> {
    let mut row = Row {
        kind: Kind::Nothing,
        numbers: [0u32; MOST],
        minus: [false; MOST],
        kept: 0,
        last: 0,
        count: 0,
        start: 0,
        bar: 0,
        place: Place::Between { minus: false },
    };
    for (i, &byte) in bytes.iter().enumerate() {
        row = step(rt, row, bytes, byte, i)?;
    }
    Ok(())
}
