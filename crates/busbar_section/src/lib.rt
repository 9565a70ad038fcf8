// Rule 3: whether the busbar section is in operation.
#![tactic(auto)]

ghost use Rattle.std.specs.Prelude.{◌≡◌};
ghost use Rattle.busbar_section.specs.Section.{good_above, section_of};

use measure::Measured;
use slots::{I_SET3, SECTION_NEEDS_CURRENT, SLOTS};

// Whether a reading is Good and above a limit.
fn good_above(m: Measured, limit: u32) -> bool
    ensures { result ≡ good_above m limit }
{
    matches!(m, Measured::Good(n) if n > limit)
}

// Rule 3.
#[tactic(auto, unfolding(crate::specs::Section::section_of))]
pub fn section(s: &[u32; SLOTS], breaker_closed: bool, i_bus: Measured) -> bool
    ensures { result ≡ section_of s.now breaker_closed i_bus }
{
    breaker_closed && (s[SECTION_NEEDS_CURRENT] != 1 || good_above(i_bus, s[I_SET3]))
}
