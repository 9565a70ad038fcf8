// The wait in numbers, and back; which numbers stand for a case.
#![tactic(auto, using(crate::proofs::Cases::coded), unfolding(crate::specs::Numbers::wait_of))]

ghost use Rattle.std.specs.Prelude.{◌≡◌};
ghost use Rattle.coding_wait.specs.Numbers.{wait_image, wait_of, is_wait};

use command::Wait;
use ways::Direction;

// Numbers, since the C interface has them.
// `side`: 0 no wait, 1 the low side, which a raise answers, 2 the high side, which a lower answers. Without a wait both are 0.
#[repr(C)]
#[derive(Clone, Copy)]
pub struct WaitImage {
    pub side: u32,
    pub ticks: u32,
}

impl From<Option<Wait>> for WaitImage {
    ghost from_gives = { λ w m. m ≡ wait_image w };

    fn from(w: Option<Wait>) -> WaitImage {
        match w {
            None => WaitImage { side: 0, ticks: 0 },
            Some(wait) => WaitImage {
                side: coding_ways::way_number(Some(wait.direction)),
                ticks: wait.ticks,
            },
        }
    }
}

impl From<WaitImage> for Option<Wait> {
    ghost from_gives = { λ m w. w ≡ wait_of m };

    fn from(m: WaitImage) -> Option<Wait> {
        if m.side == 0 {
            None
        } else if m.side == 1 {
            Some(Wait {
                direction: Direction::Raise,
                ticks: m.ticks,
            })
        } else {
            Some(Wait {
                direction: Direction::Lower,
                ticks: m.ticks,
            })
        }
    }
}

// Whether the numbers are a wait's.
pub fn is_wait(m: WaitImage) -> bool
    ensures { result ≡ is_wait m }
{
    (m.side <= 2) & ((m.side != 0) | (m.ticks == 0))
}
