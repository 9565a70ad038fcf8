// Rule 6: how the voltage stands to U_supp, the voltage to be kept; of rule 9, what asks for T3.
#![tactic(auto)]

ghost use Rattle.std.specs.Prelude.{◌≡◌, pos, ◌*ℤ◌};
ghost use Rattle.std.specs.Int.Signed.{le_z};
ghost use Rattle.busbar_deviation.specs.Deviation.{supply_of, band_of, level_of, far_above};

use busbar_level::Level;
use slots::{D_U, SLOTS, U_SET5, U_SUPP};

// U_supp 2, 3 or 4 by the highest contact that is set, else U_supp 1.
#[tactic(auto, using(common::proofs::Cases::cases), unfolding(crate::specs::Deviation::supply_of))]
pub fn supply_voltage(s: &[u32; SLOTS], second: bool, third: bool, fourth: bool) -> u32
    ensures { result ≡ supply_of s.now second third fourth }
{
    if fourth {
        return s[U_SUPP + 3];
    }
    if third {
        return s[U_SUPP + 2];
    }
    if second { s[U_SUPP + 1] } else { s[U_SUPP] }
}

// Whether 2u <= n: u against the half of n, rounded down, so that no product can overflow.
#[tactic(auto, using(crate::proofs::Bands::bands))]
fn twice_at_most(u: i64, n: i64) -> bool
    ensures { result ≡ le_z (pos 2 *ℤ u) n }
{
    u <= n >> 1
}

// A voltage against the band around U_supp. 2U >= n exactly if not 2U <= n - 1.
#[tactic(auto, using(crate::proofs::Bands::bands))]
fn band_level(u: i64, u_supp: u32, d_u: u32) -> Level
    ensures { result ≡ band_of u u_supp d_u }
{
    let middle = 2 * (u_supp as i64);
    if twice_at_most(u, middle - d_u as i64) {
        Level::Low
    } else if !twice_at_most(u, middle + d_u as i64 - 1) {
        Level::High
    } else {
        Level::InBand
    }
}

// How U stands to the band; None where U is missing.
#[tactic(auto, using(crate::proofs::Limits::limits))]
pub fn judge_level(s: &[u32; SLOTS], u: Option<i64>, u_supp: u32) -> Option<Level>
    ensures { result ≡ level_of s.now u u_supp }
{
    Some(band_level(u?, u_supp, s[D_U]))
}

// Whether U is above U_set5.
#[tactic(auto, using(crate::proofs::Limits::limits))]
pub fn far_above(s: &[u32; SLOTS], u: Option<i64>) -> bool
    ensures { result ≡ far_above s.now u }
{
    matches!(u, Some(x) if x > s[U_SET5] as i64)
}
