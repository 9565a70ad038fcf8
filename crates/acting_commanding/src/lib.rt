// Rule 9, the wait and the command; the press that is remembered.
#![tactic(auto)]

ghost use Rattle.std.specs.Prelude.{◌≡◌};
ghost use Rattle.acting_commanding.specs.Commanding.{ask_of, situated_of, noted_of, memory_of, regulated_of, drops_of};
ghost use Rattle.command_deciding.specs.Deciding.{decided_of};

use blocks::Blocks;
use command::{Decided, Heard, Memory, Situation};
use drive::Drive;
use fault::Fault;
use input::Contacts;
use sensing_assessing::Assessed;
use slots::SLOTS;
use ways::Direction;

// The drive once a command has begun, in this mode.
#[tactic(auto, using(crate::proofs::Parts::parts), unfolding(crate::specs::Commanding::ask_of))]
fn ask(d: Drive, automatic: bool, command: Option<Direction>) -> Drive
    ensures { result ≡ ask_of d automatic command }
{
    match command {
        None => d,
        Some(direction) => Drive::Asked {
            direction,
            age: 0,
            automatic,
        },
    }
}

// The drive after the rule, and what the rule keeps for the next tick.
#[derive(Clone, Copy)]
pub struct Regulated {
    pub drive: Drive,
    pub memory: Memory,
}

// What the rule finds on a tick: the side of the deviation and whether it is far, the buttons that it hears, and whether the drive
// rested as the tick started.
#[derive(Clone, Copy)]
pub struct Noted {
    pub side: Option<Direction>,
    pub far: bool,
    pub heard: Heard,
    pub rested: bool,
}

// The decision. `d` is the drive as rule 7 left it.
#[tactic(auto, using(crate::proofs::Made::decide_made))]
fn decide(s: &[u32; SLOTS], c: Contacts, b: Blocks, m: Memory, n: Noted, d: Drive) -> Decided
    ensures { result ≡ decided_of s.now (situated_of c b m n d) }
{
    let rests = drive_follow::rests(d);
    let x = Situation {
        resting: n.rested & rests,
        automatic: c.automatic,
        side: n.side,
        far: n.far,
        blocks: b,
        wait: m.wait,
        repeat: m.repeat,
        heard: n.heard,
    };
    command_deciding::decide(s, x)
}

// What drops a remembered press, out aside: a fault, automatic mode, local drive.
#[tactic(auto, using(crate::proofs::Made::drops_made))]
fn drops(c: Contacts, f: Option<Fault>) -> bool
    ensures { result ≡ drops_of c f }
{
    let fault = fault::is_fault(f);
    fault | c.automatic | c.local_drive
}

// What the rule keeps for the next tick. `f` is the fault as rule 7 left it.
#[tactic(auto, unfolding(crate::specs::Commanding::kept_press_of))]
fn keep(
    c: Contacts,
    in_band: bool,
    f: Option<Fault>,
    m: Memory,
    n: Noted,
    decided: Decided,
) -> Memory
    ensures { result ≡ memory_of c in_band f m n decided }
{
    let again = command_automatic::next_repeat(
        c.automatic,
        in_band,
        n.side,
        decided.command,
        m.repeat,
    );
    let dropped = drops(c, f);
    Memory {
        wait: decided.wait,
        repeat: again,
        keys: c.keys,
        remembered: command_manual::remember(n.rested, dropped, n.heard),
    }
}

// What the rule finds. `was` is the drive as the tick started.
#[tactic(auto, using(crate::proofs::Made::note_made))]
fn note(c: Contacts, a: Assessed, m: Memory, was: Drive) -> Noted
    ensures { result ≡ noted_of c a m was }
{
    Noted {
        side: busbar_level::side_of(a.level),
        far: a.far,
        heard: command_pairs::hear(c.keys, m.keys, m.remembered),
        rested: drive_follow::rests(was),
    }
}

// Rule 9. `was` is the drive as the tick started; `d` and `f` are the drive and the fault as rule 7 left them.
#[tactic(auto, using(crate::proofs::Made::regulate_made))]
pub fn regulate(
    s: &[u32; SLOTS],
    c: Contacts,
    a: Assessed,
    b: Blocks,
    m: Memory,
    was: Drive,
    d: Drive,
    f: Option<Fault>,
) -> Regulated
    ensures { result ≡ regulated_of s.now c a b m was d f }
{
    let noted = note(c, a, m, was);
    let decided = decide(s, c, b, m, noted, d);
    let band = busbar_level::is_in_band(a.level);
    Regulated {
        drive: ask(d, c.automatic, decided.command),
        memory: keep(c, band, f, m, noted, decided),
    }
}
