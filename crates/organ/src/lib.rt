// The organs of rule 5: each keeps a mark and a count, and trips. One function steps an organ over a tick, one loop steps all seven.
#![tactic(auto)]

ghost use Rattle.std.specs.Prelude.{◌≡◌};
ghost use Rattle.organ.specs.Organs.{marked_of, mark_of, count_of, stepped_of, all_stepped_of};

// What an organ keeps from tick to tick: its mark, and its count, the marked ticks in a row, held at the delay.
#[derive(Clone, Copy)]
pub struct Organ {
    pub marked: bool,
    pub count: u32,
}

// The side of its limit on which an organ marks.
#[derive(Clone, Copy, PartialEq, Eq)]
pub enum Side {
    Over,
    Under,
}

// What a tick brings an organ: its side, its reading, a set limit and a delay in ticks. There is no reading where the organ is
// switched off, the section is not there or the reading is missing.
#[derive(Clone, Copy)]
pub struct OrganInput {
    pub side: Side,
    pub value: Option<u32>,
    pub limit: u32,
    pub delay: u32,
}

// The organ after a tick, and whether it trips on that tick.
#[derive(Clone, Copy)]
pub struct Stepped {
    pub organ: Organ,
    pub trip: bool,
}

// The same of all seven.
#[derive(Clone, Copy)]
pub struct Organs {
    pub organs: [Organ; 7],
    pub trips: [bool; 7],
}

// The mark by a reading: marked above the limit and cleared below 19/20 of it, or under it and above 21/20 of it; else kept.
#[tactic(auto, using(common::proofs::Cases::cases))]
fn marked(was: bool, side: Side, value: u32, limit: u32) -> bool
    ensures { result ≡ marked_of was side value limit }
{
    let v = value as u64;
    let l = limit as u64;
    let (beyond, returned) = match side {
        Side::Over => (l < v, 20 * v < 19 * l),
        Side::Under => (v < l, 21 * l < 20 * v),
    };
    if beyond {
        true
    } else if returned {
        false
    } else {
        was
    }
}

// The mark after a tick: cleared where there is no reading.
#[tactic(auto, using(common::proofs::Cases::cases))]
fn mark(was: bool, x: OrganInput) -> bool
    ensures { result ≡ mark_of was x }
{
    match x.value {
        Some(value) => marked(was, x.side, value, x.limit),
        None => false,
    }
}

// The count after a tick: one more on a marked tick, held at the delay; none on another.
#[tactic(auto, using(common::proofs::Cases::cases))]
pub fn count(marked: bool, before: u32, delay: u32) -> u32
    ensures { result ≡ count_of marked before delay }
{
    if marked {
        if before < delay { before + 1 } else { delay }
    } else {
        0
    }
}

// One organ over one tick. It trips if it is marked, with at least its delay of marked ticks directly before.
#[tactic(auto, unfolding(crate::specs::Organs::organ_of, crate::specs::Organs::trip_of))]
fn organ_step(o: Organ, x: OrganInput) -> Stepped
    ensures { result ≡ stepped_of o x }
{
    let marked = mark(o.marked, x);
    let n = count(marked, o.count, x.delay);
    Stepped {
        organ: Organ { marked, count: n },
        trip: marked & (x.delay <= o.count),
    }
}

// All seven over one tick: each place is replaced once.
#[tactic(auto, using(crate::proofs::Parts::stepping), unfolding(common::proofs::Done::done))]
pub fn organs_step(organs: [Organ; 7], xs: [OrganInput; 7]) -> Organs
    ensures { result ≡ all_stepped_of organs xs }
{
    let mut next = organs;
    let mut trips = [false; 7];
    for i in 0..7 {
        let s = organ_step(organs[i], xs[i]);
        next[i] = s.organ;
        trips[i] = s.trip;
    }
    Organs {
        organs: next,
        trips,
    }
}
