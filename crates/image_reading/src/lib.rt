// The state of an image, where its numbers are some state's.
#![tactic(auto)]

ghost use Rattle.std.specs.Prelude.{◌≡◌};
ghost use Rattle.image.specs.Images.{is_state, state_of, numbers_in};

use acting_accounting::Wear;
use command::Memory;
use fault::Latch;
use image::{Image, Numbers};
use record::State;

// Whether the numbers are some state's.
pub fn is_state(n: Numbers) -> bool
    ensures { result ≡ is_state n }
{
    let marks = image_organs::are_marks(n.organ_marks);
    let drive = coding_drive::is_drive(n.drive);
    let wait = coding_wait::is_wait(n.wait);
    let ways = (n.repeat <= 2) & (n.last <= 2) & (n.remembered <= 2);
    let keys = coding_keys::are_keys(n.keys);
    marks & drive & (n.fault <= 4) & wait & ways & keys
}

// What rule 9 keeps.
fn memory_of(n: Numbers) -> Memory
    ensures { result ≡ (state_of n).memory }
{
    Memory {
        wait: n.wait.into(),
        repeat: coding_ways::way_of(n.repeat),
        keys: n.keys.into(),
        remembered: coding_ways::way_of(n.remembered),
    }
}

// The state whose numbers they are.
pub fn state_of(n: Numbers) -> State
    ensures { result ≡ state_of n }
{
    let organs = image_organs::organs_of(n.organ_marks, n.organ_counts);
    State {
        organs,
        drive: coding_drive::drive_of(n.drive),
        latch: Latch {
            fault: coding_fault::fault_of(n.fault),
            age: n.fault_age,
        },
        memory: memory_of(n),
        wear: Wear {
            last: coding_ways::way_of(n.last),
            operations: n.operations,
            counted_tap: n.counted_tap,
        },
    }
}

// The image but for its settings.
pub fn numbers_in(m: Image) -> Numbers
    ensures { result ≡ numbers_in m }
{
    let organ_marks = m.organ_marks;
    let organ_counts = m.organ_counts;
    Numbers {
        organ_marks,
        organ_counts,
        drive: m.drive,
        fault: m.fault,
        fault_age: m.fault_age,
        wait: m.wait,
        repeat: m.repeat,
        last: m.last,
        counted_tap: m.counted_tap,
        operations: m.operations,
        keys: m.keys,
        remembered: m.remembered,
    }
}
