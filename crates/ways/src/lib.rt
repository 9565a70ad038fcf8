// Directions: which a way is, and the newer of two. The low side is the one that a raise answers, so they are sides too.
#![tactic(auto)]

ghost use Rattle.std.specs.Prelude.{◌≡◌};
ghost use Rattle.ways.specs.Ways.{raises, lowers, is_to, newer_of, other_of};

#[derive(Clone, Copy, PartialEq, Eq, Debug)]
pub enum Direction {
    Raise,
    Lower,
}

pub fn to_raise(w: Option<Direction>) -> bool
    ensures { result ≡ raises w }
{
    w == Some(Direction::Raise)
}

pub fn to_lower(w: Option<Direction>) -> bool
    ensures { result ≡ lowers w }
{
    w == Some(Direction::Lower)
}

// Whether the way is this direction.
pub fn is_to(w: Option<Direction>, d: Direction) -> bool
    ensures { result ≡ is_to d w }
{
    w == Some(d)
}

// Whether both are directions, and not the same.
pub fn opposite(a: Option<Direction>, b: Option<Direction>) -> bool
    ensures { result ≡ other_of a b }
{
    let both = a.is_some() && b.is_some();
    both && a != b
}

// The new one, or the old where there is none.
#[tactic(auto, using(crate::proofs::Cases::ways))]
pub fn newer(new: Option<Direction>, old: Option<Direction>) -> Option<Direction>
    ensures { result ≡ newer_of new old }
{
    new.or(old)
}
