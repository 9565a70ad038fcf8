// The look ahead (02, ticket 8): the tick repeated, up to the first command.
#![tactic(auto)]

ghost use Rattle.std.specs.Prelude.{◌≡◌};
ghost use Rattle.common.specs.Choice.{choose};
ghost use Rattle.record.specs.Whole.{regulator_of};
ghost use Rattle.record_limits.specs.Limits.{within_of};
ghost use Rattle.rules.specs.Ticks.{tick_of};
ghost use Rattle.ahead.specs.Looking.{way_begun, answer_of, is_horizon, ahead_of};
ghost use Rattle.ahead_looking.specs.declared.Glance.{Glance};
ghost use Rattle.ahead_looking.specs.Glances.{glance_of, outlook_by};

use ahead::{FirstCommand, LONGEST_HORIZON, Outlook, Refusal};
use input::Input;
use record::{Regulator, State};
use showing::FIELDS;
use slots::SLOTS;
use ways::Direction;

const RAISE: usize = 0;

const LOWER: usize = 1;

const ASKED_OR_MOVING: usize = 24;

// One tick of the look: its outputs, and what it leaves.
#[derive(Clone, Copy)]
pub struct Glance<N> {
    pub outputs: [u32; FIELDS],
    pub next: N,
}

// The tick that is repeated, on what the last one left.
pub trait Repeated<N> {
    ghost tick: { Self → N → Glance N };

    fn tick(&self, before: N) -> Glance<N>
        ensures { result ≡ tick self.now before };
}

// The command that an accepted tick begins, by whether the drive was at rest as it started.
#[tactic(auto, using(common::proofs::Cases::cases), unfolding(ahead::specs::Looking::way_begun))]
pub fn begun(rest: bool, outputs: &[u32; FIELDS]) -> Option<Direction>
    ensures { result ≡ way_begun rest outputs.now }
{
    if rest {
        if outputs[RAISE] == 1 {
            return Some(Direction::Raise);
        }
        if outputs[LOWER] == 1 {
            return Some(Direction::Lower);
        }
    }
    None
}

// The look itself, from `first`, whose ticks are accepted: it ends at the first command. `at_rest`: as the drive is before it.
pub fn look<N: Copy, T: Repeated<N>>(
    repeated: &T,
    first: N,
    at_rest: bool,
    horizon: u32,
) -> Outlook<N>
    ensures { result ≡ outlook_by (T.tick repeated.now) at_rest first horizon }
{
    let mut next = first;
    let mut rest = at_rest;
    let mut outputs = [0u32; FIELDS];
    for tick in 1..=horizon {
        let seen = repeated.tick(next);
        next = seen.next;
        outputs = seen.outputs;
        if let Some(direction) = begun(rest, &outputs) {
            return Outlook {
                begun: Some(FirstCommand { tick, direction }),
                outputs,
                next,
            };
        }
        rest = outputs[ASKED_OR_MOVING] == 0;
    }
    Outlook {
        begun: None,
        outputs,
        next,
    }
}

// Whether a look may go so many ticks.
pub fn is_horizon(horizon: u32) -> bool
    ensures { result ≡ is_horizon horizon }
{
    (1..=LONGEST_HORIZON).contains(&horizon)
}

// The tick of a record.
#[derive(Clone, Copy)]
struct OnRecord {
    settings: [u32; SLOTS],
    input: Input,
}

impl Repeated<State> for OnRecord {
    ghost tick = { λ t m. glance_of (tick_of (regulator_of t.settings m) t.input) };

    fn tick(&self, before: State) -> Glance<State> {
        let stepped = regulator::step(&self.settings, before, self.input);
        let outputs = rules::outputs_in(stepped.reply);
        Glance {
            outputs,
            next: stepped.next,
        }
    }
}

// Refused for a record outside its limits, then for a horizon of 0 or above the longest; else the look. What it gives is the paper's
// sentence (`each`), and its next record is refused afterwards only if this one was (`lasting`).
pub fn look_ahead(r: Regulator, i: Input, horizon: u32) -> Result<Outlook<Regulator>, Refusal>
    ensures each { answer_of r result ≡ ahead_of r i horizon }
    ensures refusal { (answer_of r result).refusal ≡ choose (within_of r) (choose (is_horizon horizon) 0 6) 4 }
    ensures lasting { within_of (answer_of r result).next ≡ within_of r }
{
    let settings = r.settings;
    if !record_limits::within(&settings, r.state) {
        return Err(Refusal::Record);
    }
    if !is_horizon(horizon) {
        return Err(Refusal::Horizon);
    }
    let repeated = OnRecord { settings, input: i };
    let found = look(
        &repeated,
        r.state,
        drive_follow::rests(r.state.drive),
        horizon,
    );
    let outputs = found.outputs;
    Ok(Outlook {
        begun: found.begun,
        outputs,
        next: Regulator {
            settings,
            state: found.next,
        },
    })
}
