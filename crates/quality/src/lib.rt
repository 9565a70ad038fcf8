// A reading by the number of its quality, as a host hands it over and as a recording has it.
#![tactic(auto)]

ghost use Rattle.std.specs.Prelude.{◌≡◌};
ghost use Rattle.quality.specs.Quality.{reading_by};

use measure::Reading;

// 0 Good, 1 Held; any other number is Invalid, and the float is not looked at.
#[tactic(auto, using(common::proofs::Cases::cases), unfolding(crate::specs::Quality::reading_by))]
pub fn reading_by(quality: u32, x: f32) -> Reading
    ensures { result ≡ reading_by quality x }
{
    match quality {
        0 => Reading::Good(x),
        1 => Reading::Held(x),
        _ => Reading::Invalid,
    }
}
