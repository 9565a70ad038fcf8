// The whole part of a square root.
#![tactic(auto)]

ghost use Rattle.std.specs.Prelude.{◌≡◌, ◌+◌, ◌<◌, ◌^◌};
ghost use Rattle.root.specs.Roots.{root_of, Root, with_step};

// Binary digits of the largest root of a u64: as many steps, whatever the number.
const DIGITS: u32 = 32;

// The root so far with a step added, if the square does not pass n.
#[tactic(auto, using(crate::proofs::Laws::steps), unfolding(crate::specs::Roots::with_step))]
fn with_step(n: u64, r: u64, step: u64) -> u64
    requires { r + step < 2 ^ 32 }
    ensures { result ≡ with_step n r step }
{
    let t = r + step;
    if t * t <= n { t } else { r }
}

// The largest whole number whose square is not above n, found digit by digit from the highest on.
pub fn root(n: u64) -> u64
    ensures each { result ≡ root_of n }
    ensures largest { Root n result }
{
    let mut r: u64 = 0;
    for i in (0..DIGITS).rev() {
        r = with_step(n, r, 1 << i);
    }
    r
}
