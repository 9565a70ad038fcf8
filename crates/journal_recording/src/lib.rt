// The recorder: what a tick adds to a journal, written into a lent list.
#![tactic(auto)]

ghost use Rattle.std.specs.Prelude.{◌≡◌, ◌+◌, ◌≤◌, length};
ghost use Rattle.common.specs.Written.{Written};
ghost use Rattle.journal_changes.specs.Changes.{change_of, changes_from, recorder_answer, list_recorded};

use journal_changes::ChangesAdded;
use showing::FIELDS;

// The numbers of one field's change; 0 where it has none.
#[tactic(auto, using(journal_changes::proofs::Recorded::sizes))]
fn size(b: u32, a: u32) -> u32
    ensures { result ≡ length (change_of 0 0 b a) }
{
    if a == b {
        return 0;
    }
    3
}

// How many numbers a tick adds.
fn numbers_added(before: [u32; FIELDS], after: [u32; FIELDS]) -> u32
    ensures { result ≡ length (changes_from 0 0 before after) }
{
    let mut count: u32 = 0;
    for i in 0..FIELDS {
        count += size(before[i], after[i]);
    }
    count
}

// One field's change from `at` on, where it has one; answers where it ends.
fn put_change(stamp: u32, field: u32, b: u32, a: u32, list: &mut [u32], at: usize) -> usize
    requires { at + length (change_of stamp field b a) ≤ length list.old }
    ensures { Written list.old at (change_of stamp field b a) list.new result }
{
    if a == b {
        return at;
    }
    list[at] = stamp;
    list[at + 1] = field;
    list[at + 2] = a;
    at + 3
}

// All that a tick adds, at the list's front.
fn put_changes(stamp: u32, before: [u32; FIELDS], after: [u32; FIELDS], list: &mut [u32]) -> usize
    requires { length (changes_from stamp 0 before after) ≤ length list.old }
    ensures { Written list.old 0 (changes_from stamp 0 before after) list.new result }
{
    let mut end: usize = 0;
    for i in 0..FIELDS {
        end = put_change(stamp, i as u32, before[i], after[i], list, end);
    }
    end
}

// What the tick of this stamp adds to a journal, at the list's front, and the next tick's stamp: a change for each output that is not
// what it was before. 7 where the list is too short: nothing is written, and the stamp is as given.
// The one refusal is the C interface's number, and stands once.
pub fn record_changes(
    stamp: u32,
    before: [u32; FIELDS],
    after: [u32; FIELDS],
    list: &mut [u32],
) -> ChangesAdded
    ensures answer { result ≡ recorder_answer stamp before after (length list.old) }
    ensures numbers { list.new ≡ list_recorded stamp before after list.old }
{
    let count = numbers_added(before, after);
    if list.len() < count as usize {
        return ChangesAdded {
            refusal: 7,
            count: 0,
            stamp,
        };
    }
    put_changes(stamp, before, after, list);
    ChangesAdded {
        refusal: 0,
        count,
        stamp: journal_stamps::stamp_after(stamp, 1),
    }
}
