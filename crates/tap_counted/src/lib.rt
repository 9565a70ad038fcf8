// Rule 7: the counted tap's step at the end of a tick on which a move ended.
#![tactic(auto)]

ghost use Rattle.std.specs.Prelude.{◌≡◌};
ghost use Rattle.tap_counted.specs.Counted.{tap_of, is_up, step_of, moved_of, counted_of};

use slots::{N_L, N_R, SLOTS, TAP_SOURCE};
use ways::Direction;

// The counted tap after the tick; range error where the step was past an end.
#[derive(Clone, Copy)]
pub struct Counted {
    pub tap: u32,
    pub range_error: bool,
}

// A counted tap that no step changes, or that a step past an end leaves.
fn at(tap: u32, range_error: bool) -> Counted
    ensures { result ≡ tap_of tap range_error }
{
    Counted { tap, range_error }
}

fn is_up(d: Direction, reversed: bool) -> bool
    ensures { result ≡ is_up d reversed }
{
    match d {
        Direction::Raise => !reversed,
        Direction::Lower => reversed,
    }
}

// The step of a move: up by a raise, down where the count is reversed, unless past an end.
#[tactic(auto, using(common::proofs::Cases::cases), unfolding(crate::specs::Counted::step_of, crate::specs::Counted::up_of, crate::specs::Counted::down_of))]
fn step_by(s: &[u32; SLOTS], tap: u32, d: Direction) -> Counted
    ensures { result ≡ step_of s.now tap d }
{
    if is_up(d, s[TAP_SOURCE] == 4) {
        if tap < s[N_R] {
            at(tap + 1, false)
        } else {
            at(tap, true)
        }
    } else if s[N_L] < tap {
        at(tap - 1, false)
    } else {
        at(tap, true)
    }
}

// After a tick on which a move ended, or none.
#[tactic(auto, using(crate::proofs::Steps::steps))]
fn after_move(s: &[u32; SLOTS], tap: u32, ended: Option<Direction>) -> Counted
    ensures { result ≡ moved_of s.now tap ended }
{
    match ended {
        None => at(tap, false),
        Some(d) => step_by(s, tap, d),
    }
}

// The counted tap after the tick, on which the move `ended`, or none.
#[tactic(auto, using(common::proofs::Cases::cases), unfolding(crate::specs::Counted::counted_of))]
pub fn count_move(s: &[u32; SLOTS], tap: u32, ended: Option<Direction>) -> Counted
    ensures { result ≡ counted_of s.now tap ended }
{
    let source = s[TAP_SOURCE];
    if (source == 3) | (source == 4) {
        after_move(s, tap, ended)
    } else {
        at(tap, false)
    }
}
