// A journal of changes (02, ticket 9): its numbers, its rules and its text; types, definitions and laws, no code.
#![tactic(auto)]

use showing::FIELDS;

// The fields whose values may be above 1: the tap and the operations; and the highest tap that a sheet takes.
pub const TAP: u32 = 3;

pub const OPERATIONS: u32 = 25;

pub const HIGHEST_TAP: u32 = 40;

// Which number of a change comes next: "stamp, field, new value".
#[derive(Clone, Copy, PartialEq, Eq)]
pub enum Turn {
    Stamp,
    Field,
    Value,
}

// What stands before a number: whose turn it is, whether this change has the stamp of the one before, the last stamp if there is one,
// the last field, and each field's last value.
#[derive(Clone, Copy)]
pub struct Progress {
    pub turn: Turn,
    pub same: bool,
    pub stamp: Option<u32>,
    pub field: u32,
    pub last: [u32; FIELDS],
}

// A number and how many bytes it takes.
#[derive(Clone, Copy)]
pub struct Number {
    pub value: u64,
    pub count: usize,
}

// Why nothing is written: what was lent is too short, or the number at this place, or from this byte on, breaks a rule or is missing.
#[derive(Clone, Copy)]
pub enum Refused {
    TooShort,
    Broken(usize),
}

// What the writer answers: 0 and the text's length; 7; or 8 and the place of the first broken number. What is not named is 0.
#[repr(C)]
#[derive(Clone, Copy)]
pub struct TextWritten {
    pub refusal: u32,
    pub place: usize,
    pub length: usize,
}

// What the reader answers: 0 and the count of numbers; 7; or 8 and the offset of the first broken number, or the length if it is
// missing. What is not named is 0.
#[repr(C)]
#[derive(Clone, Copy)]
pub struct NumbersRead {
    pub refusal: u32,
    pub offset: usize,
    pub count: usize,
}
