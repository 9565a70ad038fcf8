// How a voltage stands to the band around U_supp, and what that asks for.
#![tactic(auto)]

ghost use Rattle.std.specs.Prelude.{◌≡◌};
ghost use Rattle.busbar_level.specs.Levels.{side_of, is_missing, is_in_band};

use ways::Direction;

// How a voltage stands to the band around U_supp. Where an Option of it is None, the voltage is missing.
#[derive(Clone, Copy, PartialEq, Eq)]
pub enum Level {
    Low,
    InBand,
    High,
}

// The command that a deviation asks for: low a raise, high a lower.
#[tactic(auto, unfolding(crate::specs::Levels::side_of))]
pub fn side_of(l: Option<Level>) -> Option<Direction>
    ensures { result ≡ side_of l }
{
    match l {
        Some(Level::Low) => Some(Direction::Raise),
        Some(Level::High) => Some(Direction::Lower),
        Some(Level::InBand) | None => None,
    }
}

pub fn is_missing(l: Option<Level>) -> bool
    ensures { result ≡ is_missing l }
{
    l.is_none()
}

pub fn is_in_band(l: Option<Level>) -> bool
    ensures { result ≡ is_in_band l }
{
    l == Some(Level::InBand)
}
