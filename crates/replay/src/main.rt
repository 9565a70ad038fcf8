// `replay SHEET RECORDING`: the answer to the sheet, and then a line of outputs for each recorded tick.
//
// `data/` was made by the second program, `reference`: the sheet of seed 2517, which compensates along R and X, and the recordings
// of seeds 2517 and 46, of 1,300 and 500 ticks, one after the other. Eleven commands in them are the dispatcher's and ten the
// panel's, three of which are presses that were made while the drive ran; a change of mode drops nine others. `stdout` is what
// that program prints of them.
#![tactic(auto)]

use std::env::FillError;
use std::rt::Env;

// The longest argument that Linux hands over has one byte less.
const LONGEST: usize = 131_072;

fn main(rt: HostRuntime) {
    let err = rt.stderr();
    let mut sheet = [0u8; LONGEST];
    let mut recording = [0u8; LONGEST];
    let s = rt.arg(1, &mut sheet);
    let r = rt.arg(2, &mut recording);
    let more = rt.arg(3, &mut []);
    match (s, r, more) {
        (Ok(s), Ok(r), Err(FillError::NotPresent)) => {
            replay_starting::replay(&rt, &err, &sheet[..s], &recording[..r]);
        }
        _ => replay_telling::usage(&err),
    }
}
