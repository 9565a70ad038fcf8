// The sliding taps, at which the drive may close its contact by itself.
#![tactic(auto)]

ghost use Rattle.std.specs.Prelude.{◌≡◌};
ghost use Rattle.tap_sliding.specs.Sliding.{sliding_of};

use slots::{SLIDING_TAPS, SLOTS};

// The slots for sliding taps.
const SLIDING: usize = 10;

// Whether the tap is a sliding one. Tap 0 is none, so that it matches no empty slot.
#[tactic(auto, using(crate::proofs::Members::stands_found))]
pub fn is_sliding(s: &[u32; SLOTS], tap: u32) -> bool
    ensures { result ≡ sliding_of s.now tap }
{
    s[SLIDING_TAPS..SLIDING_TAPS + SLIDING].contains(&tap) & (tap != 0)
}
