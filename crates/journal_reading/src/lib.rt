// The numbers of a journal, read from its text into a lent list.
#![tactic(auto)]

ghost use Rattle.std.specs.Prelude.{◌≡◌, true, ◌≤◌, ◌<◌, Some, IfSome, length};
ghost use Rattle.journal.specs.Rules.{journal_start};
ghost use Rattle.journal.specs.Reading.{decoded_up_to, group_before, first_number, prefix_from, extent_of, numbers_read, reader_answer, list_filled, list_after};
ghost use Rattle.journal.proofs.Decoded.{IsNumber};

use journal::{Number, NumbersRead, Refused};

// The most groups of a number.
const GROUPS: usize = 5;

// A group before the rest of its number, which is broken where it is 0.
#[tactic(auto, using(journal::proofs::Decoded::before))]
fn group_before(b: u8, rest: Number) -> Option<Number>
    requires { (rest.value < 0x1000_0000) × (rest.count < 5) }
    ensures { result ≡ group_before b (Some rest) }
{
    if rest.value == 0 {
        return None;
    }
    Some(Number {
        value: u64::from(b % 128) + 128 * rest.value,
        count: rest.count + 1,
    })
}

// The number of at most `left` groups at the text's front.
fn groups(text: &[u8], left: usize) -> Option<Number>
    requires { left ≤ 5 }
    ensures { result ≡ decoded_up_to left text.now }
{
    if left == 0 {
        return None;
    }
    let (&b, rest) = text.split_first()?;
    if b < 128 {
        return Some(Number {
            value: u64::from(b),
            count: 1,
        });
    }
    group_before(b, groups(rest, left - 1)?)
}

// The number at the text's front, below 2^32.
#[tactic(auto, using(journal::proofs::Decoded::firsts))]
fn first_number(text: &[u8]) -> Option<Number>
    ensures number { result ≡ first_number text.now }
    ensures fits { IfSome result (λ n. IsNumber text.now n) }
{
    let n = groups(text, GROUPS)?;
    if n.value < 0x1_0000_0000 {
        return Some(n);
    }
    None
}

// How many numbers a whole journal has; else where its first broken number begins, or the length if it is missing.
fn extent(text: &[u8]) -> Result<usize, Refused>
    ensures { result ≡ extent_of text.now }
{
    let mut state = journal_judging::start();
    let mut rest = text;
    let mut count: usize = 0;
    // Over the rest of the text: a number takes what it takes.
    while !rest.is_empty() {
        let at = text.len() - rest.len();
        let Some(n) = first_number(rest) else {
            return Err(Refused::Broken(at));
        };
        let Some(next) = journal_judging::judge(&state, n.value as u32) else {
            return Err(Refused::Broken(at));
        };
        state = next;
        rest = &rest[n.count..];
        count += 1;
    }
    if journal_judging::has_ended(&state) {
        return Ok(count);
    }
    Err(Refused::Broken(text.len()))
}

// The numbers of a whole journal, at the list's front.
fn fill_list(text: &[u8], list: &mut [u32])
    requires { ((prefix_from journal_start text.now).whole ≡ true) × (length (prefix_from journal_start text.now).numbers ≤ length list.old) }
    ensures { list.new ≡ list_filled text.now list.old }
{
    let mut rest = text;
    let mut i: usize = 0;
    while let Some(n) = first_number(rest) {
        list[i] = n.value as u32;
        rest = &rest[n.count..];
        i += 1;
    }
}

// The journal's numbers at the list's front, and how many they are. Where the text is no journal's, or the list is shorter than the numbers,
// nothing is written.
fn read_numbers(text: &[u8], list: &mut [u32]) -> Result<usize, Refused>
    ensures answer { numbers_read result ≡ reader_answer text.now (length list.old) }
    ensures numbers { list.new ≡ list_after text.now list.old }
{
    let count = extent(text)?;
    if list.len() < count {
        return Err(Refused::TooShort);
    }
    fill_list(text, list);
    Ok(count)
}

// The same in the C interface's numbers: 0 and the count, 7 for a short list, 8 and the offset for a text that is no journal's.
pub fn read_journal(text: &[u8], list: &mut [u32]) -> NumbersRead
    ensures answer { result ≡ reader_answer text.now (length list.old) }
    ensures numbers { list.new ≡ list_after text.now list.old }
{
    match read_numbers(text, list) {
        Ok(count) => NumbersRead {
            refusal: 0,
            offset: 0,
            count,
        },
        Err(Refused::TooShort) => NumbersRead {
            refusal: 7,
            offset: 0,
            count: 0,
        },
        Err(Refused::Broken(offset)) => NumbersRead {
            refusal: 8,
            offset,
            count: 0,
        },
    }
}
