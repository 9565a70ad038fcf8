// The sheet and its answer; and then the recording, where the sheet is taken.
#![tactic(auto)]

ghost use Rattle.replay_streamed.specs.Streamed.{Replayed};
ghost use Rattle.replay_starting.specs.Started.{Answered, RunFrom};

use files::Filled;
use record::Regulator;
use recording_lines::WIDEST;
use recording_sheets::SHEET;
use replay_streamed::Ended;
use sheet::Refusal;
use std::io;
use std::rt::Files;

// The record that a sheet gives, or why the sheet is refused.
pub type Answer = Result<Regulator, Refusal>;

// The answer to the sheet's file, or to no bytes where it cannot be opened, and whether it could not be read. What was read before an error
// has its answer too.
#[derive(Clone, Copy)]
struct Read {
    failed: bool,
    answer: Answer,
}

// The answer to the sheet, and the run of the recording.
#[derive(Clone, Copy)]
pub struct Whole {
    pub answer: Answer,
    pub ended: Ended,
}

// One byte more than a sheet has is asked for, so that a longer file shows.
fn open_sheet<R: Files>(rt: &R, path: &[u8]) -> Read
    ensures { Answered result.answer }
{
    let mut bytes = [0u8; SHEET + 1];
    let Filled { got, failed } = files::read_file(rt, path, &mut bytes);
    let answer = recording_sheets::start(&bytes[..got]);
    Read { failed, answer }
}

// `0 0`, or the refusal's number and slot.
fn print_answer<R: Print>(rt: &R, answer: &Answer) -> io::Result<()> {
    let numbers = [sheet::number(answer), sheet::slot(answer)];
    let mut line = [0u8; 2 * WIDEST];
    let end = recording_lines::write_line(&numbers, &mut line, 0);
    rt.write_all(&line[..end])
}

// The answer, and then the recording's lines.
fn print_run<R: Print, E: Print, F: io::Read>(
    rt: &R,
    err: &E,
    file: &mut F,
    path: &[u8],
    state: Regulator,
) -> Ended
    ensures { Replayed state result }
{
    if print_answer(rt, &Ok(state)).is_ok() {
        return replay_streaming::run_all(rt, err, file, path, state);
    }
    replay_telling::cannot_write(err);
    replay_streaming::run_none(state)
}

// The recording of a sheet that is taken.
fn run<R: Files + Print, E: Print>(rt: &R, err: &E, path: &[u8], state: Regulator) -> Ended
    ensures { Replayed state result }
{
    match files::open(rt, path) {
        Some(mut file) => print_run(rt, err, &mut file, path, state),
        None => {
            replay_telling::cannot_read(err, path);
            replay_streaming::run_none(state)
        }
    }
}

// What was read of the sheet.
fn go_on<R: Files + Print, E: Print>(rt: &R, err: &E, recording: &[u8], answer: Answer) -> Ended
    ensures { RunFrom answer result }
{
    match answer {
        Ok(state) => run(rt, err, recording, state),
        Err(_) => {
            if print_answer(rt, &answer).is_err() {
                replay_telling::cannot_write(err);
            }
            replay_streaming::run_none(record_starting::zeros())
        }
    }
}

// What is printed goes to `rt`, and what is told of the run to `err`.
pub fn replay<R: Files + Print, E: Print>(rt: &R, err: &E, sheet: &[u8], recording: &[u8]) -> Whole
    ensures { Answered result.answer × RunFrom result.answer result.ended }
{
    let Read { failed, answer } = open_sheet(rt, sheet);
    let ended = if failed {
        replay_telling::cannot_read(err, sheet);
        replay_streaming::run_none(record_starting::record_of(answer))
    } else {
        go_on(rt, err, recording, answer)
    };
    Whole { answer, ended }
}
