// The host's image of the record: the record in numbers alone, since no enum may cross the boundary and a host is not trusted
// to hand over a bool. One image for each record, there and back: types, definitions and laws, no code.
#![tactic(auto)]

use coding_drive::DriveImage;
use coding_keys::KeyImage;
use coding_wait::WaitImage;
use slots::SLOTS;

// `fault`: 0 none, 1 run-away, 2 not started, 3 long, 4 fast. `repeat`, `last`, `remembered`: 0 none, 1 raise, 2 lower. A mark
// is 0 or 1.
#[repr(C)]
#[derive(Clone, Copy)]
pub struct Image {
    pub settings: [u32; SLOTS],
    pub organ_marks: [u32; 7],
    pub organ_counts: [u32; 7],
    pub drive: DriveImage,
    pub fault: u32,
    pub fault_age: u32,
    pub wait: WaitImage,
    pub repeat: u32,
    pub last: u32,
    pub counted_tap: u32,
    pub operations: u32,
    pub keys: KeyImage,
    pub remembered: u32,
}

// The image but for its settings: the state in numbers.
#[derive(Clone, Copy)]
pub struct Numbers {
    pub organ_marks: [u32; 7],
    pub organ_counts: [u32; 7],
    pub drive: DriveImage,
    pub fault: u32,
    pub fault_age: u32,
    pub wait: WaitImage,
    pub repeat: u32,
    pub last: u32,
    pub counted_tap: u32,
    pub operations: u32,
    pub keys: KeyImage,
    pub remembered: u32,
}

// The directions that a state remembers, in numbers.
#[derive(Clone, Copy)]
pub struct WayNumbers {
    pub repeat: u32,
    pub last: u32,
    pub remembered: u32,
}
