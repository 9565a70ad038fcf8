// The motor drive of the tap changer: what is known of it between ticks. A tick follows it by its switching contact
// (`drive_follow`), or holds its command without one (`drive_hold`).
#![tactic(auto)]

use ways::Direction;

// A command is asked until the switching contact closes, and moving until it opens again; without the contact it is asked, and
// held, until it ends. `age` counts the ticks after the command's first, `automatic` is the mode in which it began, `length`
// the ticks that the contact has been closed. An own move is one that no command began.
#[derive(Clone, Copy, PartialEq, Eq)]
pub enum Drive {
    Resting,
    Asked {
        direction: Direction,
        age: u32,
        automatic: bool,
    },
    Moving {
        direction: Direction,
        length: u32,
        commanded: bool,
    },
}
