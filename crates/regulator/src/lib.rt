// One tick of the regulator: the rules in the paper's order. The settings are lent, as no tick changes them; the state goes by
// value.
#![tactic(auto)]

ghost use Rattle.std.specs.Prelude.{◌≡◌, List};
ghost use Rattle.record.specs.Whole.{regulator_of};
ghost use Rattle.record_limits.specs.Limits.{within_of};
ghost use Rattle.claim.specs.Claim.{Kept};
ghost use Rattle.rules.specs.Lists.{list_from, opening};
ghost use Rattle.rules.specs.Ticks.{shown_of, state_of, ran_of, out_of, refused_of, tick_of, stepped_of};

use input::{Contacts, Input};
use record::{Regulator, State};
use rules::{Acted, Refused, Ticked};
use sensing::Sensed;
use showing::{FIELDS, Shown};
use slots::{IN_SERVICE, SLOTS};

// All outputs 0.
const ALL_OFF: [u32; FIELDS] = [0u32; FIELDS];

// What the outputs show.
fn shown_of(c: Contacts, x: Sensed, y: Acted) -> Shown
    ensures { result ≡ shown_of c x y }
{
    let trips = x.organs.trips;
    Shown {
        automatic: c.automatic,
        section: x.observed.section,
        position: x.observed.position,
        counted_error: y.accounted.range_error,
        trips,
        blocks: y.blocks,
        level: x.assessed.level,
        latch: y.supervised.latch,
        before: y.supervised.before,
        drive: y.regulated.drive,
        operations: y.accounted.wear.operations,
    }
}

// The next state.
fn state_of(x: Sensed, y: Acted) -> State
    ensures { result ≡ state_of x y }
{
    let organs = x.organs.organs;
    State {
        organs,
        drive: y.regulated.drive,
        latch: y.supervised.latch,
        memory: y.regulated.memory,
        wear: y.accounted.wear,
    }
}

// Rules 2 to 10, on a record in service.
fn live(s: &[u32; SLOTS], m: State, i: Input, c: Contacts) -> Ticked<State>
    ensures { result ≡ stepped_of (ran_of (regulator_of s.now m) i c) }
{
    let x = sensing::sense(s, m.organs, m.wear.counted_tap, i, c);
    let y = acting::act(s, c, x, m.drive, m.latch, m.memory, m.wear);
    Ticked {
        reply: Ok(showing::show(s, shown_of(c, x, y))),
        next: state_of(x, y),
    }
}

// Rule 1: the record becomes the fresh one, all outputs 0.
fn out_of_service(s: &[u32; SLOTS], m: State) -> Ticked<State>
    ensures { result ≡ stepped_of (out_of (regulator_of s.now m)) }
{
    Ticked {
        reply: Ok(ALL_OFF),
        next: record_starting::fresh_state(s),
    }
}

// Refusal 4.
fn refused(s: &[u32; SLOTS], m: State) -> Ticked<State>
    ensures { result ≡ stepped_of (refused_of (regulator_of s.now m)) }
{
    Ticked {
        reply: Err(Refused::Record),
        next: m,
    }
}

// One tick of the record of these settings and this state: what `tick` gives, but for the settings.
pub fn step(s: &[u32; SLOTS], m: State, i: Input) -> Ticked<State>
    ensures { result ≡ stepped_of (tick_of (regulator_of s.now m) i) }
{
    if record_limits::within(s, m) {
        let c = input::decode_contacts(i.contacts);
        if (s[IN_SERVICE] == 0) | c.out {
            out_of_service(s, m)
        } else {
            live(s, m, i, c)
        }
    } else {
        refused(s, m)
    }
}

// One tick. What it gives is what the rules give (`each`); its next record is refused afterwards only if this one was
// (`lasting`); and every list of ticks that it opens, each later one on the record that the last returned, keeps demand 3
// (`lists`).
pub fn tick(r: Regulator, i: Input) -> Ticked<Regulator>
    ensures each { result ≡ tick_of r i }
    ensures lasting { within_of result.next ≡ within_of r }
    ensures lists { (later : List Input) → Kept (opening r) (list_from r i result later) }
{
    let settings = r.settings;
    let stepped = step(&settings, r.state, i);
    Ticked {
        reply: stepped.reply,
        next: Regulator {
            settings,
            state: stepped.next,
        },
    }
}
