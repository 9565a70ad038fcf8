// Stamps, which run through 4,294,967,295 back to 0.
#![tactic(auto)]

ghost use Rattle.std.specs.Prelude.{◌≡◌};
ghost use Rattle.journal.specs.Stamps.{ticks_between, is_later, stamp_after};

// The stamp so many ticks later.
#[tactic(auto, unfolding(journal::specs::Stamps::stamp_after))]
pub fn stamp_after(a: u32, ticks: u32) -> u32
    ensures { result ≡ stamp_after a ticks }
{
    a.wrapping_add(ticks)
}

// The ticks from `a` to `b`, wrapped.
#[tactic(auto, unfolding(journal::specs::Stamps::ticks_between))]
pub fn ticks_between(a: u32, b: u32) -> u32
    ensures { result ≡ ticks_between a b }
{
    b.wrapping_sub(a)
}

// Whether `b` is later than `a`.
#[tactic(auto, unfolding(journal::specs::Stamps::is_later))]
pub fn is_later(a: u32, b: u32) -> bool
    ensures { result ≡ is_later a b }
{
    let d = ticks_between(a, b);
    1 <= d && d <= 0x7FFF_FFFF
}
