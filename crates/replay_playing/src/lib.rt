// The ticks of a recording's bytes, played one after the other: each gives a line of its outputs.
#![tactic(auto)]

ghost use Rattle.std.specs.Prelude.{◌+◌, ◌*◌, ◌≤◌, ◌≡◌, length};
ghost use Rattle.files.specs.Counts.{IsPrefixLen};
ghost use Rattle.recording_ticks.specs.Recorded.{tick_bytes, decoded_of};
ghost use Rattle.replay_playing.specs.Played.{line_room, step_of, lines_of, played_to, played_of};

use record::Regulator;
use recording_ticks::TICK;

// After one tick: the next record, and the end of the lines.
#[derive(Clone, Copy)]
pub struct Stepped {
    pub next: Regulator,
    pub end: usize,
}

// After some ticks: the next record, the bytes that they took, and the end of their lines.
#[derive(Clone, Copy)]
pub struct Ran {
    pub next: Regulator,
    pub done: usize,
    pub end: usize,
}

// The tick at this place, if there is one, its line put at the end of the lines.
fn step(state: Regulator, bytes: &[u8], at: usize, lines: &mut [u8], end: usize) -> Option<Stepped>
    requires { end + line_room ≤ length lines.old }
    ensures step { result ≡ step_of (decoded_of bytes.now at) state end }
    ensures text { lines.new ≡ lines_of (decoded_of bytes.now at) state lines.old end }
{
    match recording_ticks::decode_tick(bytes, at) {
        Ok(input) => {
            let ticked = regulator::tick(state, input);
            let outputs = rules::outputs_in(ticked.reply);
            let end = recording_lines::write_line(&outputs, lines, end);
            Some(Stepped {
                next: ticked.next,
                end,
            })
        }
        Err(_) => None,
    }
}

// The whole ticks of a chunk, up to one that cannot be decoded. There is room for as many lines as it has ticks.
pub fn run_ticks(state: Regulator, bytes: &[u8], lines: &mut [u8]) -> Ran
    requires { line_room * length bytes.now ≤ tick_bytes * length lines.old }
    ensures played { played_to result.next result.done result.end lines.new ≡ played_of state bytes.now }
    ensures counts { IsPrefixLen result.end lines.new }
{
    let mut next = state;
    let mut done: usize = 0;
    let mut end: usize = 0;
    // By a tick's bytes, while they last.
    while bytes.len() - done >= TICK {
        match step(next, bytes, done, lines, end) {
            Some(stepped) => {
                next = stepped.next;
                end = stepped.end;
            }
            None => break,
        }
        done += TICK;
    }
    Ran { next, done, end }
}
