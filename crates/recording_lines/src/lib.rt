// A line of numbers as text: decimal, split by single blanks.
#![tactic(auto)]

ghost use Rattle.std.specs.Prelude.{◌≡◌, ◌+◌, ◌*◌, ◌≤◌, ◌<◌, [], ◌∷◌, length, drop};
ghost use Rattle.common.specs.Written.{Written};
ghost use Rattle.recording_lines.specs.Lines.{widest, decimal_of, mark_of, line_of, written_of, end_of};

// The most digits of a number.
const DIGITS: usize = 10;

// The most bytes that a number takes: its digits, and the blank or the line's end after it.
pub const WIDEST: usize = DIGITS + 1;

fn put(byte: u8, out: &mut [u8], at: usize) -> usize
    requires { at < length out.old }
    ensures { Written out.old at (byte ∷ []) out.new result }
{
    out[at] = byte;
    at + 1
}

// The number's digits, from `at` on.
fn put_number(n: u32, out: &mut [u8], at: usize) -> usize
    requires { at + length (decimal_of n) ≤ length out.old }
    ensures { Written out.old at (decimal_of n) out.new result }
{
    if n < 10 {
        return put(b'0' + n as u8, out, at);
    }
    let end = put_number(n / 10, out, at);
    put(b'0' + (n % 10) as u8, out, end)
}

// What stands after the ith number: a blank, or the line's end after the last.
#[tactic(auto, using(crate::proofs::Texts::marks))]
fn mark_after(numbers: &[u32], i: usize) -> u8
    requires { i < length numbers.now }
    ensures { result ≡ mark_of (drop (i + 1) numbers.now) }
{
    if i + 1 < numbers.len() { b' ' } else { b'\n' }
}

fn put_numbers(numbers: &[u32], out: &mut [u8], at: usize) -> usize
    requires { at + widest * length numbers.now ≤ length out.old }
    ensures { Written out.old at (line_of numbers.now) out.new result }
{
    let mut end = at;
    for (i, &n) in numbers.iter().enumerate() {
        end = put_number(n, out, end);
        end = put(mark_after(numbers, i), out, end);
    }
    end
}

// The numbers as a line of text, from `at` on; answers where it ends. Where `out` may not hold it, nothing is written and the
// answer is `at`.
pub fn write_line(numbers: &[u32], out: &mut [u8], at: usize) -> usize
    ensures text { out.new ≡ written_of numbers.now out.old at }
    ensures end { result ≡ end_of numbers.now out.old at }
    ensures within { at ≤ length out.old → result ≤ length out.new }
{
    if out.len() < at || (out.len() - at) / WIDEST < numbers.len() {
        return at;
    }
    put_numbers(numbers, out, at)
}
