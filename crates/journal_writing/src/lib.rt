// The text of a journal, written from its numbers into a lent buffer.
#![tactic(auto)]

ghost use Rattle.std.specs.Prelude.{◌≡◌, ◌+◌, ◌≤◌, leb, length};
ghost use Rattle.common.specs.Written.{Written};
ghost use Rattle.journal.specs.Rules.{journal_start, checked_from};
ghost use Rattle.journal.specs.Texts.{groups_of, journal_text, text_written, writer_answer, buffer_after};

use journal::{Refused, TextWritten};

// How many groups a number has.
#[tactic(auto, using(journal::proofs::Groups::sizes))]
fn size(n: u32) -> usize
    ensures { result ≡ length (groups_of n) }
{
    match n {
        0..0x80 => 1,
        0x80..0x4000 => 2,
        0x4000..0x20_0000 => 3,
        0x20_0000..0x1000_0000 => 4,
        _ => 5,
    }
}

// Whether the list's text has at most so many bytes.
fn fits(list: &[u32], room: usize) -> bool
    ensures { result ≡ leb (length (journal_text list.now)) room }
{
    let mut left = room;
    for &number in list {
        let n = size(number);
        if left < n {
            return false;
        }
        left -= n;
    }
    true
}

// The number's groups from `at` on; answers where they end.
fn put_number(n: u32, buffer: &mut [u8], at: usize) -> usize
    requires { at + length (groups_of n) ≤ length buffer.old }
    ensures { Written buffer.old at (groups_of n) buffer.new result }
{
    let mut rest = n;
    let mut end = at;
    // By its groups: how many there are is not known before.
    while rest >= 128 {
        buffer[end] = (128 + rest % 128) as u8;
        rest /= 128;
        end += 1;
    }
    buffer[end] = rest as u8;
    end + 1
}

fn put_list(list: &[u32], buffer: &mut [u8]) -> usize
    requires { length (journal_text list.now) ≤ length buffer.old }
    ensures { Written buffer.old 0 (journal_text list.now) buffer.new result }
{
    let mut end: usize = 0;
    for &number in list {
        end = put_number(number, buffer, end);
    }
    end
}

// Where the list breaks the rules first.
fn check_list(list: &[u32]) -> Result<(), usize>
    ensures { result ≡ checked_from journal_start list.now }
{
    let mut state = journal_judging::start();
    for (i, &number) in list.iter().enumerate() {
        match journal_judging::judge(&state, number) {
            Some(next) => state = next,
            None => return Err(i),
        }
    }
    if journal_judging::has_ended(&state) {
        return Ok(());
    }
    Err(list.len())
}

// The list's one text at the buffer's front, and its length. Where the list breaks a rule, or the buffer is shorter than the text, nothing
// is written.
#[tactic(auto, using(journal::proofs::Puts::answers), unfolding(journal::specs::Texts::writer_answer))]
fn write_text(list: &[u32], buffer: &mut [u8]) -> Result<usize, Refused>
    ensures answer { text_written result ≡ writer_answer list.now (length buffer.old) }
    ensures text { buffer.new ≡ buffer_after list.now buffer.old }
{
    check_list(list).map_err(Refused::Broken)?;
    if !fits(list, buffer.len()) {
        return Err(Refused::TooShort);
    }
    Ok(put_list(list, buffer))
}

// The same in the C interface's numbers: 0 and the length, 7 for a short buffer, 8 and the place for a broken rule.
pub fn write_journal(list: &[u32], buffer: &mut [u8]) -> TextWritten
    ensures answer { result ≡ writer_answer list.now (length buffer.old) }
    ensures text { buffer.new ≡ buffer_after list.now buffer.old }
{
    match write_text(list, buffer) {
        Ok(length) => TextWritten {
            refusal: 0,
            place: 0,
            length,
        },
        Err(Refused::TooShort) => TextWritten {
            refusal: 7,
            place: 0,
            length: 0,
        },
        Err(Refused::Broken(place)) => TextWritten {
            refusal: 8,
            place,
            length: 0,
        },
    }
}
