// The drive in numbers, and back; which numbers stand for a case.
#![tactic(auto)]

ghost use Rattle.std.specs.Prelude.{◌≡◌};
ghost use Rattle.coding_drive.specs.Numbers.{asked_number, move_number, drive_image, drive_of, is_drive};

use drive::Drive;

// Numbers, since no enum crosses the C interface.
// `kind`: 0 at rest, 1 asked by an automatic command, 2 a commanded move, 3 an own move, 4 asked by a manual command.
// `direction`: 0 raise, 1 lower. `ticks`: the asked command's age or the move's length. At rest all three are 0.
#[repr(C)]
#[derive(Clone, Copy)]
pub struct DriveImage {
    pub kind: u32,
    pub direction: u32,
    pub ticks: u32,
}

fn asked_number(automatic: bool) -> u32
    ensures { result ≡ asked_number automatic }
{
    if automatic { 1 } else { 4 }
}

fn move_number(commanded: bool) -> u32
    ensures { result ≡ move_number commanded }
{
    if commanded { 2 } else { 3 }
}

impl From<Drive> for DriveImage {
    ghost from_gives = { λ d m. m ≡ drive_image d };

    #[tactic(auto, unfolding(crate::specs::Numbers::drive_image))]
    fn from(d: Drive) -> DriveImage {
        match d {
            Drive::Resting => DriveImage {
                kind: 0,
                direction: 0,
                ticks: 0,
            },
            Drive::Asked {
                direction,
                age,
                automatic,
            } => DriveImage {
                kind: asked_number(automatic),
                direction: coding_ways::direction_number(direction),
                ticks: age,
            },
            Drive::Moving {
                direction,
                length,
                commanded,
            } => DriveImage {
                kind: move_number(commanded),
                direction: coding_ways::direction_number(direction),
                ticks: length,
            },
        }
    }
}

pub fn drive_image(d: Drive) -> DriveImage
    ensures { result ≡ drive_image d }
{
    DriveImage::from(d)
}

// No `TryFrom`: whether the numbers are a drive's is asked once, of the image as a whole, before any is read.
#[tactic(auto, using(common::proofs::Cases::cases), unfolding(crate::specs::Numbers::drive_of))]
pub fn drive_of(m: DriveImage) -> Drive
    ensures { result ≡ drive_of m }
{
    let direction = coding_ways::direction_of(m.direction);
    match m.kind {
        0 => Drive::Resting,
        1 | 4 => Drive::Asked {
            direction,
            age: m.ticks,
            automatic: m.kind == 1,
        },
        _ => Drive::Moving {
            direction,
            length: m.ticks,
            commanded: m.kind == 2,
        },
    }
}

// Whether the numbers are a drive's.
pub fn is_drive(m: DriveImage) -> bool
    ensures { result ≡ is_drive m }
{
    let rests = (m.direction == 0) & (m.ticks == 0);
    (m.kind <= 4) & (m.direction <= 1) & ((m.kind != 0) | rests)
}
