// The limits of a record. A record outside them is refused with 4.
#![tactic(auto)]

ghost use Rattle.std.specs.Prelude.{◌≡◌};
ghost use Rattle.record.specs.Whole.{regulator_of};
ghost use Rattle.record_limits.specs.Limits.{ticks_of, delays_of, kind_within, motion_within, press_within, counts_within, within_of};

use acting_accounting::{MOST_OPERATIONS, Wear};
use command::{LONGEST_WAIT, Wait};
use drive::Drive;
use fault::{Fault, Latch};
use organ::Organ;
use record::State;
use slots::{CONTINUOUS, N_L, N_R, ORGAN_DELAYS, SLOTS, T4, T5, T8};
use ways::Direction;

#[tactic(auto, unfolding(crate::specs::Limits::ticks_of))]
fn wait_ticks(w: Option<Wait>) -> u32
    ensures { result ≡ ticks_of w }
{
    match w {
        Some(w) => w.ticks,
        None => 0,
    }
}

// The delays of the seven organs.
fn organ_delays(s: &[u32; SLOTS]) -> [u32; 7]
    ensures { result ≡ delays_of s.now }
{
    [
        s[ORGAN_DELAYS],
        s[ORGAN_DELAYS + 1],
        s[ORGAN_DELAYS + 2],
        s[ORGAN_DELAYS + 3],
        s[ORGAN_DELAYS + 4],
        s[ORGAN_DELAYS + 5],
        s[ORGAN_DELAYS + 6],
    ]
}

// What the kind of drive allows: an asked command, a move and a fault.
#[tactic(auto, using(crate::proofs::OfKind::kinds))]
fn kind_within(s: &[u32; SLOTS], d: Drive, f: Option<Fault>) -> bool
    ensures { result ≡ kind_within s.now d f }
{
    if s[CONTINUOUS] == 1 {
        let held = drive_hold::within(d, s[T4]);
        held & fault::is_long_or_none(f)
    } else {
        drive_follow::within(d, s[T4], s[T5])
    }
}

// The drive, the wait and the fault.
fn motion_within(s: &[u32; SLOTS], d: Drive, w: Option<Wait>, l: Latch) -> bool
    ensures { result ≡ motion_within s.now d w l }
{
    let ticks = wait_ticks(w);
    let rests = drive_follow::rests(d);
    let moves = kind_within(s, d, l.fault);
    let fault = fault::is_fault(l.fault);
    let latched = fault_latch::latch_within(l, s[T8]);
    (ticks <= LONGEST_WAIT) & (rests | (ticks == 0)) & moves & (!fault | rests) & latched
}

// No press is remembered beside a fault.
#[tactic(auto, unfolding(crate::specs::Limits::press_within))]
fn press_within(f: Option<Fault>, press: Option<Direction>) -> bool
    ensures { result ≡ press_within f press }
{
    !(f.is_some() & press.is_some())
}

// The organs, the counted tap and the operations.
fn counts_within(s: &[u32; SLOTS], organs: [Organ; 7], w: Wear) -> bool
    ensures { result ≡ counts_within s.now organs w }
{
    let marks = organ_limits::organs_within(organs, organ_delays(s));
    let tap = w.counted_tap;
    marks & (s[N_L] <= tap) & (tap <= s[N_R]) & (w.operations <= MOST_OPERATIONS)
}

// Whether the record of these settings and this state is within its limits.
pub fn within(s: &[u32; SLOTS], m: State) -> bool
    ensures { result ≡ within_of (regulator_of s.now m) }
{
    let passes = sheet_judging::passes(s);
    let motion = motion_within(s, m.drive, m.memory.wait, m.latch);
    let press = press_within(m.latch.fault, m.memory.remembered);
    let counts = counts_within(s, m.organs, m.wear);
    passes & motion & press & counts
}
