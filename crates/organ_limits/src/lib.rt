// The limits of the organs of a record.
#![tactic(auto)]

ghost use Rattle.std.specs.Prelude.{◌≡◌};
ghost use Rattle.organ_limits.specs.Limits.{organ_within, organs_within};

use organ::Organ;

// Whether an organ is within a record's limits: a count of at most its delay, and of 0 if it is not marked.
#[tactic(auto, unfolding(crate::specs::Limits::organ_within))]
fn organ_within(o: Organ, delay: u32) -> bool
    ensures { result ≡ organ_within delay o }
{
    (o.count <= delay) & (o.marked | (o.count == 0))
}

// Whether all seven are.
pub fn organs_within(organs: [Organ; 7], delays: [u32; 7]) -> bool
    ensures { result ≡ organs_within delays organs }
{
    organs
        .iter()
        .zip(delays.iter())
        .all(|(organ, delay)| organ_within(*organ, *delay))
}
