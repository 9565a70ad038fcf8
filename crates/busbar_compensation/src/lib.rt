// Rule 6: the voltage U, which is U_AB less the drop that the load's current makes.
#![tactic(auto)]

ghost use Rattle.std.specs.Prelude.{◌≡◌, true, ◌≤◌, ◌<◌, ◌^◌, nat_abs};
ghost use Rattle.busbar_current.specs.Current.{most_reading, most_current, difference_of, Within};
ghost use Rattle.busbar_compensation.specs.Voltage.{most_comp, drop_of, is_rating, is_rated, voltage_drop, voltage_of};

use measure::Measured;
use slots::{BREAKER_RATING, COMPENSATION, CT_RATING, SLOTS, U_COMP};

// 40 V, and 20,000 A: no sheet that is taken has a U_comp or a rating above it.
const MOST_COMP: u32 = 40_000;

const MOST_RATING: u32 = 20_000;

// U_comp × I × the current transformer's rating, divided once by 1,000k × the breaker's, toward zero.
#[tactic(auto, using(crate::proofs::Drops::drops))]
fn drop_at(u_comp: u32, i: i64, k: u32, ct: u32, breaker: u32) -> i64
    requires { (u_comp ≤ most_comp) × (nat_abs i ≤ most_current) × (0 < k) × (k ≤ 5) × (is_rating ct ≡ true) × (is_rating breaker ≡ true) }
    ensures { (result ≡ drop_of u_comp i k ct breaker) × (nat_abs result ≤ 2 ^ 60) }
{
    (u_comp as i64) * i * (ct as i64) / ((1000 * k * breaker) as i64)
}

// Whether a number of A is a rating: 1 to 20,000.
#[tactic(auto, unfolding(crate::specs::Voltage::is_rating))]
fn is_rating(n: u32) -> bool
    ensures { result ≡ is_rating n }
{
    1 <= n && n <= MOST_RATING
}

// Whether U_comp and the ratings are such as a sheet can hold: then no product overflows, and the divisor is not 0.
#[tactic(auto, unfolding(crate::specs::Voltage::is_rated))]
fn is_rated(s: &[u32; SLOTS]) -> bool
    ensures { result ≡ is_rated s.now }
{
    s[U_COMP] <= MOST_COMP && is_rating(s[CT_RATING]) && is_rating(s[BREAKER_RATING])
}

// U less the drop by U_comp, missing if U or I is.
#[tactic(auto, using(crate::proofs::Drops::drops))]
fn less_drop(s: &[u32; SLOTS], u: Option<i64>, i: Option<i64>) -> Option<i64>
    requires { Within most_reading u × Within most_current i }
    ensures { result ≡ difference_of u (voltage_drop s.now i) }
{
    let (u, i) = (u?, i?);
    if is_rated(s) {
        let k = sheet_ranges::module_factor(s);
        Some(u - drop_at(s[U_COMP], i, k, s[CT_RATING], s[BREAKER_RATING]))
    } else {
        None
    }
}

// The voltage U: U_AB, less the drop if slot 3 is 1.
#[tactic(auto, using(common::proofs::Cases::cases), unfolding(crate::specs::Voltage::voltage_of))]
pub fn voltage(
    s: &[u32; SLOTS],
    u_ab: Measured,
    i_bus: Measured,
    i_coupler: Measured,
) -> Option<i64>
    ensures { result ≡ voltage_of s.now u_ab i_bus i_coupler }
{
    let u = busbar_current::good(u_ab);
    if s[COMPENSATION] == 1 {
        less_drop(s, u, busbar_current::current(s, i_bus, i_coupler))
    } else {
        u
    }
}
