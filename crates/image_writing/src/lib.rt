// The image of a record: its numbers, with the settings.
#![tactic(auto)]

ghost use Rattle.std.specs.Prelude.{◌≡◌};
ghost use Rattle.image.specs.Images.{way_numbers, numbers_of, image_with, image_of, taken_of, record_of};

use image::{Image, Numbers, WayNumbers};
use record::{Regulator, State};
use slots::SLOTS;

fn way_numbers(m: State) -> WayNumbers
    ensures { result ≡ way_numbers m }
{
    WayNumbers {
        repeat: coding_ways::way_number(m.memory.repeat),
        last: coding_ways::way_number(m.wear.last),
        remembered: coding_ways::way_number(m.memory.remembered),
    }
}

// A state in numbers.
pub fn numbers_of(m: State) -> Numbers
    ensures { result ≡ numbers_of m }
{
    let numbers = image_organs::organ_numbers(m.organs);
    let organ_marks = numbers.marks;
    let organ_counts = numbers.counts;
    let ways = way_numbers(m);
    Numbers {
        organ_marks,
        organ_counts,
        drive: m.drive.into(),
        fault: coding_fault::fault_number(m.latch.fault),
        fault_age: m.latch.age,
        wait: m.memory.wait.into(),
        repeat: ways.repeat,
        last: ways.last,
        counted_tap: m.wear.counted_tap,
        operations: m.wear.operations,
        keys: m.memory.keys.into(),
        remembered: ways.remembered,
    }
}

// The image with these settings.
pub fn image_with(settings: [u32; SLOTS], n: Numbers) -> Image
    ensures { result ≡ image_with settings n }
{
    let organ_marks = n.organ_marks;
    let organ_counts = n.organ_counts;
    Image {
        settings,
        organ_marks,
        organ_counts,
        drive: n.drive,
        fault: n.fault,
        fault_age: n.fault_age,
        wait: n.wait,
        repeat: n.repeat,
        last: n.last,
        counted_tap: n.counted_tap,
        operations: n.operations,
        keys: n.keys,
        remembered: n.remembered,
    }
}

// The one image of a record. It gives the record back.
pub fn image_of(r: Regulator) -> Image
    ensures each { result ≡ image_of r }
    ensures back { record_of result ≡ taken_of r }
{
    image_with(r.settings, numbers_of(r.state))
}
