// How far a run over a recording has come, chunk by chunk: types, and definitions with their laws (`specs/Streamed.antt`). The code is
// crate `replay_streaming`.
#![tactic(auto)]

use record::Regulator;

// After the ticks of a chunk: the next record, the bytes that they took, the end of their lines, and whether the lines were written. The
// ticks count whether or not they were. The fields of `replay_playing::Ran` stand here once more: `advanced.ran.ran.next` is no plainer than
// `advanced.ran.next`.
#[derive(Clone, Copy)]
pub struct Written {
    pub next: Regulator,
    pub done: usize,
    pub end: usize,
    pub written: bool,
}

// After a chunk: its run, the bytes that were read, and whether the whole run is over. The chunk counts whether or not it is.
#[derive(Clone, Copy)]
pub struct Advanced {
    pub ran: Written,
    pub got: usize,
    pub over: bool,
}

// After all chunks: the run of the last one, the bytes that were read for it, and where it starts in the file.
#[derive(Clone, Copy)]
pub struct Ended {
    pub ran: Written,
    pub got: usize,
    pub offset: u64,
}
