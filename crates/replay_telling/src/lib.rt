// What is told of a run on standard error, a line each. What cannot be written there is not told.
#![tactic(auto)]

use recording_ticks::DecodeError;

pub fn usage<E: Print>(err: &E) {
    let _ = println!(err; "usage: replay SHEET RECORDING");
}

pub fn cannot_read<E: Print>(err: &E, path: &[u8]) {
    let _ = print!(err; "replay: cannot read ");
    let _ = err.write_all(path);
    let _ = println!(err);
}

pub fn cannot_write<E: Print>(err: &E) {
    let _ = println!(err; "replay: cannot write the output");
}

pub fn bad_quality<E: Print>(err: &E, path: &[u8], byte: u8, offset: u64) {
    let _ = print!(err; "replay: ");
    let _ = err.write_all(path);
    let _ = println!(err; ": quality byte {byte} at offset {offset} is above 2");
}

pub fn cut_short<E: Print>(err: &E, path: &[u8], offset: u64) {
    let _ = print!(err; "replay: ");
    let _ = err.write_all(path);
    let _ = println!(err; ": the last tick is cut short at offset {offset}");
}

// Says what ended the run: a bad quality byte, a read that failed, or bytes that are left over. `offset` is where the bytes start in
// the file, and `done` how many of them were run.
pub fn report<E: Print>(
    err: &E,
    path: &[u8],
    bytes: &[u8],
    done: usize,
    offset: u64,
    failed: bool,
) {
    match recording_ticks::decode_tick(bytes, done) {
        Ok(_) => {}
        Err(DecodeError::BadQuality { place, byte }) => {
            let start = offset.wrapping_add(done as u64);
            bad_quality(err, path, byte, start.wrapping_add(place as u64));
        }
        Err(DecodeError::CutShort) => {
            if failed {
                cannot_read(err, path);
            } else if done < bytes.len() {
                cut_short(err, path, offset.wrapping_add(bytes.len() as u64));
            }
        }
    }
}
