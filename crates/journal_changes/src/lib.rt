// What a tick, and a run of ticks, adds to a journal (02, ticket 9): types, definitions and laws, no code.
#![tactic(auto)]

// What the recorder answers: 0, the count of numbers that the tick added, and the next tick's stamp; or 7, 0 and the stamp as given.
#[repr(C)]
#[derive(Clone, Copy)]
pub struct ChangesAdded {
    pub refusal: u32,
    pub count: u32,
    pub stamp: u32,
}
