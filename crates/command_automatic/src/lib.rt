// Rule 9 in automatic mode.
#![tactic(auto, using(crate::proofs::Made::made), unfolding(crate::specs::Automatic::delay_of, crate::specs::Automatic::wait_on_of, crate::specs::Automatic::kept_of, crate::specs::Automatic::repeat_of))]

ghost use Rattle.std.specs.Prelude.{◌≡◌};
ghost use Rattle.command_automatic.specs.Automatic.{waited_of, delay_of, wait_on_of, toward_of, automatic_of, kept_of, repeat_of};

use command::{Decided, Situation, Wait};
use slots::{CONTINUOUS, SLOTS, T1, T2, T3};
use ways::Direction;

// The ticks that were waited for a command of this direction, 0 on a new side.
fn waited(w: Option<Wait>, d: Direction) -> u32
    ensures { result ≡ waited_of d w }
{
    match w {
        None => 0,
        Some(wait) => if wait.direction == d { wait.ticks } else { 0 },
    }
}

// The delay in force for a command of this direction; T2 only for a drive with a switching contact.
fn delay_in_force(s: &[u32; SLOTS], d: Direction, far: bool, repeat: Option<Direction>) -> u32
    ensures { result ≡ delay_of s.now d far repeat }
{
    let continuous = s[CONTINUOUS] == 1;
    if (d == Direction::Lower) & far {
        s[T3]
    } else if (repeat == Some(d)) & !continuous {
        s[T2]
    } else {
        s[T1]
    }
}

// One tick more of the wait: a command once it has reached the delay.
fn wait_on(d: Direction, ticks: u32, delay: u32) -> Decided
    ensures { result ≡ wait_on_of d ticks delay }
{
    let next = ticks.saturating_add(1);
    if next < delay {
        Decided {
            command: None,
            wait: Some(Wait {
                direction: d,
                ticks: next,
            }),
        }
    } else {
        Decided {
            command: Some(d),
            wait: None,
        }
    }
}

// A deviation to this direction's side.
fn toward(s: &[u32; SLOTS], x: Situation, d: Direction) -> Decided
    ensures { result ≡ toward_of s.now x d }
{
    if x.blocks.automatic | blocks::opposes(x.blocks, d) {
        command::idle()
    } else {
        wait_on(d, waited(x.wait, d), delay_in_force(s, d, x.far, x.repeat))
    }
}

pub fn automatic_mode(s: &[u32; SLOTS], x: Situation) -> Decided
    ensures { result ≡ automatic_of s.now x }
{
    match x.side {
        None => command::idle(),
        Some(d) => toward(s, x, d),
    }
}

// The side of the last automatic command, forgotten in band and on the other side.
fn kept(in_band: bool, side: Option<Direction>, old: Option<Direction>) -> Option<Direction>
    ensures { result ≡ kept_of in_band side old }
{
    if in_band | ways::opposite(side, old) {
        None
    } else {
        old
    }
}

// The side for which T2 is in force after this tick, with the command that began on it.
pub fn next_repeat(
    automatic: bool,
    in_band: bool,
    side: Option<Direction>,
    command: Option<Direction>,
    old: Option<Direction>,
) -> Option<Direction>
    ensures { result ≡ repeat_of automatic in_band side command old }
{
    let still = kept(in_band, side, old);
    let latest = ways::newer(command, still);
    if automatic { latest } else { None }
}
