// A direction and a way in numbers, and back; which numbers stand for a case.
#![tactic(auto)]

ghost use Rattle.std.specs.Prelude.{◌≡◌};
ghost use Rattle.coding_ways.specs.Numbers.{direction_number, direction_of, way_number, way_of};

use ways::Direction;

// Functions, and no `From`: neither type of a conversion is of this crate. Total: whether a number is some case's is asked once,
// of the image as a whole.

pub fn direction_number(d: Direction) -> u32
    ensures { result ≡ direction_number d }
{
    match d {
        Direction::Raise => 0,
        Direction::Lower => 1,
    }
}

#[tactic(auto, using(common::proofs::Cases::cases), unfolding(crate::specs::Numbers::direction_of))]
pub fn direction_of(n: u32) -> Direction
    ensures { result ≡ direction_of n }
{
    match n {
        0 => Direction::Raise,
        _ => Direction::Lower,
    }
}

pub fn way_number(w: Option<Direction>) -> u32
    ensures { result ≡ way_number w }
{
    match w {
        None => 0,
        Some(Direction::Raise) => 1,
        Some(Direction::Lower) => 2,
    }
}

#[tactic(auto, using(common::proofs::Cases::cases), unfolding(crate::specs::Numbers::way_of))]
pub fn way_of(n: u32) -> Option<Direction>
    ensures { result ≡ way_of n }
{
    match n {
        0 => None,
        1 => Some(Direction::Raise),
        _ => Some(Direction::Lower),
    }
}
