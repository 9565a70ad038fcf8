// The rules of a journal, a number at a time: stamp, field, value.
#![tactic(auto)]

ghost use Rattle.std.specs.Prelude.{◌≡◌, set};
ghost use Rattle.journal.specs.Rules.{journal_start, highest_value, last_value, may_follow, judged_stamp, judged_field, judged_value, judged_number, has_ended};

use acting_accounting::MOST_OPERATIONS;
use journal::{HIGHEST_TAP, OPERATIONS, Progress, TAP, Turn};
use showing::FIELDS;

// Before the first number.
#[tactic(auto, unfolding(journal::specs::Rules::journal_start))]
pub fn start() -> Progress
    ensures { result ≡ journal_start }
{
    Progress {
        turn: Turn::Stamp,
        stamp: None,
        same: false,
        field: 0,
        last: [0u32; FIELDS],
    }
}

// The most that a field's value can be.
#[tactic(auto, unfolding(journal::specs::Rules::highest_value, common::specs::Choice::choose))]
fn highest_value(field: u32) -> u32
    ensures { result ≡ highest_value field }
{
    match field {
        TAP => HIGHEST_TAP,
        OPERATIONS => MOST_OPERATIONS,
        _ => 1,
    }
}

// A field's last value; 0 where there is no such field.
#[tactic(auto, using(journal::proofs::Judging::no_field))]
fn last_value(s: &Progress) -> u32
    ensures { result ≡ last_value s.now }
{
    match s.last.get(s.field as usize) {
        Some(&last) => last,
        None => 0,
    }
}

// Whether a stamp is the last one or later, where there is a last one.
fn may_follow(last: Option<u32>, stamp: u32) -> bool
    ensures { result ≡ may_follow last stamp }
{
    match last {
        None => true,
        Some(last) => stamp == last || journal_stamps::is_later(last, stamp),
    }
}

#[tactic(auto, unfolding(journal::specs::Rules::judged_stamp, common::specs::Choice::choose))]
fn judge_stamp(s: &Progress, n: u32) -> Option<Progress>
    ensures { result ≡ judged_stamp s.now n }
{
    if !may_follow(s.stamp, n) {
        return None;
    }
    Some(Progress {
        turn: Turn::Field,
        stamp: Some(n),
        same: s.stamp == Some(n),
        ..*s
    })
}

#[tactic(auto, unfolding(journal::specs::Rules::judged_field, common::specs::Choice::choose))]
fn judge_field(s: &Progress, n: u32) -> Option<Progress>
    ensures { result ≡ judged_field s.now n }
{
    let keeps = (n < FIELDS as u32) & (!s.same | (s.field < n));
    if !keeps {
        return None;
    }
    Some(Progress {
        turn: Turn::Value,
        field: n,
        ..*s
    })
}

// The last values with the field's new one.
#[tactic(auto, using(journal::proofs::Judging::not_stored))]
fn stored(s: &Progress, n: u32) -> [u32; FIELDS]
    ensures { result ≡ set s.now.last s.now.field n }
{
    let mut last = s.last;
    let field = s.field as usize;
    if field < FIELDS {
        last[field] = n;
    }
    last
}

#[tactic(auto, unfolding(journal::specs::Rules::judged_value, common::specs::Choice::choose))]
fn judge_value(s: &Progress, n: u32) -> Option<Progress>
    ensures { result ≡ judged_value s.now n }
{
    let keeps = (n <= highest_value(s.field)) & (n != last_value(s));
    if !keeps {
        return None;
    }
    Some(Progress {
        turn: Turn::Stamp,
        last: stored(s, n),
        ..*s
    })
}

// What stands before the next number, where this one keeps the rules. It stands in the loops that call it: as a call it would copy the whole
// progress for each number.
#[inline(always)]
#[tactic(auto, unfolding(journal::specs::Rules::judged_number))]
pub fn judge(s: &Progress, n: u32) -> Option<Progress>
    ensures { result ≡ judged_number s.now n }
{
    match s.turn {
        Turn::Stamp => judge_stamp(s, n),
        Turn::Field => judge_field(s, n),
        Turn::Value => judge_value(s, n),
    }
}

// Whether a change has ended, so that the journal may end here.
pub fn has_ended(s: &Progress) -> bool
    ensures { result ≡ has_ended s.now.turn }
{
    s.turn == Turn::Stamp
}
