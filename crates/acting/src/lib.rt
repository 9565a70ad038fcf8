// Rules 2 and 7 to 9: what is done. Each rule, called with what it needs of the record, the sheet and the rules before it.
#![tactic(auto)]

ghost use Rattle.std.specs.Prelude.{◌≡◌};
ghost use Rattle.rules.specs.Acting.{finding_of, acted_of};

use acting_accounting::Wear;
use acting_judging::Finding;
use command::Memory;
use drive::Drive;
use fault::Latch;
use input::Contacts;
use rules::Acted;
use sensing::Sensed;
use slots::SLOTS;

// What rules 7 and 8 go by of the rules before.
fn finding_of(x: Sensed) -> Finding
    ensures { result ≡ finding_of x }
{
    let trips = x.organs.trips;
    Finding {
        section: x.observed.section,
        level: x.assessed.level,
        trips,
        tap: x.observed.position.unwrap_or(0),
    }
}

// Rules 2 and 7 to 9, with what the record keeps of the drive, its fault, rule 9 and wear.
pub fn act(
    s: &[u32; SLOTS],
    c: Contacts,
    x: Sensed,
    d: Drive,
    l: Latch,
    m: Memory,
    w: Wear,
) -> Acted
    ensures { result ≡ acted_of s.now c x d l m w }
{
    let found = finding_of(x);
    let supervised = acting_supervising::supervise(s, c, found, d, l, w.last);
    let fault = supervised.latch.fault;
    let blocks = acting_judging::block(s, c, fault, found);
    let followed = supervised.drive;
    let regulated = acting_commanding::regulate(s, c, x.assessed, blocks, m, d, followed, fault);
    let accounted = acting_accounting::account(s, supervised.ended, supervised.operation, w);
    Acted {
        supervised,
        blocks,
        regulated,
        accounted,
    }
}
