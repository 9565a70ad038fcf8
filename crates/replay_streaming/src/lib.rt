// The recording, streamed: some ticks are read, run and their lines written, and then the next ones.
#![tactic(auto)]

ghost use Rattle.std.specs.Prelude.{◌+◌, ◌*◌, ◌≤◌, ◌≡◌, length};
ghost use Rattle.recording_ticks.specs.Recorded.{tick_bytes};
ghost use Rattle.replay_playing.specs.Played.{line_room, played_to, played_of};
ghost use Rattle.replay_streamed.specs.Streamed.{chunk_bytes, Chunk, Streamed, Replayed};

use files::Filled;
use record::Regulator;
use recording_lines::WIDEST;
use recording_ticks::TICK;
use replay_streamed::{Advanced, Ended, Written};
use showing::FIELDS;
use std::io::Read;

// Ticks that are read at once.
const TICKS: usize = 64;

const CHUNK: usize = TICKS * TICK;

// Room for the lines of as many ticks.
const LINES: usize = TICKS * FIELDS * WIDEST;

// More turns than any file has chunks, and so few that no offset wraps.
const TURNS: u64 = u64::MAX / CHUNK as u64;

// Runs a chunk and writes its lines.
fn run_chunk<R: Print>(rt: &R, state: Regulator, bytes: &[u8], lines: &mut [u8]) -> Written
    requires { line_room * length bytes.now ≤ tick_bytes * length lines.old }
    ensures { played_to result.next result.done result.end lines.new ≡ played_of state bytes.now }
{
    let ran = replay_playing::run_ticks(state, bytes, lines);
    Written {
        next: ran.next,
        done: ran.done,
        end: ran.end,
        written: rt.write_all(&lines[..ran.end]).is_ok(),
    }
}

// The next chunk of the file, which starts at the offset. One that is not full is the last.
fn run_some<R: Print, E: Print, F: Read>(
    rt: &R,
    err: &E,
    file: &mut F,
    path: &[u8],
    state: Regulator,
    offset: u64,
    space: &mut [u8],
    lines: &mut [u8],
) -> Advanced
    requires { line_room * length space.old ≤ tick_bytes * length lines.old }
    ensures { Chunk state space.new lines.new result }
{
    let Filled { got, failed } = files::fill(file, space);
    let ran = run_chunk(rt, state, &space[..got], lines);
    if !ran.written {
        replay_telling::cannot_write(err);
        return Advanced {
            ran,
            got,
            over: true,
        };
    }
    if ran.done == CHUNK {
        return Advanced {
            ran,
            got,
            over: false,
        };
    }
    replay_telling::report(err, path, &space[..got], ran.done, offset, failed);
    Advanced {
        ran,
        got,
        over: true,
    }
}

// A proved loop has to end, and nothing says that a file does. So it counts its turns, up to a number that no run uses up.
fn run_chunks<R: Print, E: Print, F: Read>(
    rt: &R,
    err: &E,
    file: &mut F,
    path: &[u8],
    state: Regulator,
    space: &mut [u8],
    lines: &mut [u8],
) -> Ended
    requires { (length space.old ≡ chunk_bytes) × (line_room * chunk_bytes ≤ tick_bytes * length lines.old) }
    ensures { Streamed state space.new lines.new result }
{
    let mut next = state;
    let mut offset: u64 = 0;
    for turn in 0..TURNS {
        let advanced = run_some(rt, err, file, path, next, offset, space, lines);
        if advanced.over {
            return Ended {
                ran: advanced.ran,
                got: advanced.got,
                offset,
            };
        }
        next = advanced.ran.next;
        offset += CHUNK as u64;
    }
    Ended {
        ran: Written {
            next,
            done: 0,
            end: 0,
            written: true,
        },
        got: 0,
        offset,
    }
}

// Nothing is read, and the record stays.
pub fn run_none(state: Regulator) -> Ended
    ensures { Replayed state result × (result.offset + result.got ≡ 0) }
{
    Ended {
        ran: Written {
            next: state,
            done: 0,
            end: 0,
            written: true,
        },
        got: 0,
        offset: 0,
    }
}

// All that is left of the file, with room for one chunk and its lines.
pub fn run_all<R: Print, E: Print, F: Read>(
    rt: &R,
    err: &E,
    file: &mut F,
    path: &[u8],
    state: Regulator,
) -> Ended
    ensures { Replayed state result }
{
    let mut space = [0u8; CHUNK];
    let mut lines = [0u8; LINES];
    run_chunks(rt, err, file, path, state, &mut space, &mut lines)
}
