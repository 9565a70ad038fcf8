// Rule 5: the seven organs.
#![tactic(auto)]

ghost use Rattle.std.specs.Prelude.{◌≡◌, ◌<◌};
ghost use Rattle.sensing_protecting.specs.Protecting.{amount_of, organ_input_of, protected_of};

use input::Readings;
use measure::Measured;
use organ::{Organ, OrganInput, Organs, Side};
use slots::{ORGAN_DELAYS, ORGAN_LIMITS, ORGANS_ON, SLOTS};

// The number of a reading, Good or Held.
#[tactic(auto, unfolding(crate::specs::Protecting::amount_of))]
fn amount(m: Measured) -> Option<u32>
    ensures { result ≡ amount_of m }
{
    match m {
        Measured::Good(n) | Measured::Held(n) => Some(n),
        Measured::Missing => None,
    }
}

// What the organ at a place, 0 for organ 6, goes by.
#[tactic(auto, using(common::proofs::Cases::cases), unfolding(crate::specs::Protecting::organ_input_of))]
fn organ_input(s: &[u32; SLOTS], k: usize, side: Side, m: Measured, section: bool) -> OrganInput
    requires { k < 7 }
    ensures { result ≡ organ_input_of s.now section k side m }
{
    let on = (s[ORGANS_ON + k] == 1) & section;
    OrganInput {
        side,
        value: if on { amount(m) } else { None },
        limit: s[ORGAN_LIMITS + k],
        delay: s[ORGAN_DELAYS + k],
    }
}

// Rule 5.
pub fn protect(s: &[u32; SLOTS], organs: [Organ; 7], x: Readings, section: bool) -> Organs
    ensures { result ≡ protected_of s.now organs x section }
{
    let a = organ_input(s, 0, Side::Over, x.i_high, section);
    let b = organ_input(s, 1, Side::Over, x.i_bus, section);
    let c = organ_input(s, 2, Side::Under, x.i_bus, section);
    let d = organ_input(s, 3, Side::Over, x.u_ab, section);
    let e = organ_input(s, 4, Side::Under, x.u_ab, section);
    let f = organ_input(s, 5, Side::Over, x.u0, section);
    let g = organ_input(s, 6, Side::Over, x.u2, section);
    organ::organs_step(organs, [a, b, c, d, e, f, g])
}
