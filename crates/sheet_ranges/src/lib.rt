// The ranges of the setting sheet: low, high and step of each slot, and one loop that checks every slot.
#![tactic(auto)]

mod ranges;

ghost use Rattle.std.specs.Prelude.{◌≡◌, ◌≤◌, true, ◌||◌, eqb};
ghost use Rattle.sheet_ranges.specs.Table.{module_factor, taken_by};
ghost use Rattle.sheet_ranges.specs.Columns.{Scalable, times_k};
ghost use Rattle.sheet_ranges.specs.Ranges.{first_out_of_range};

use ranges::{HIGH, LOW, STEP};
use slots::{I_SET1, I_SET2, I_SET3, MODULE, REACTANCE, RESISTANCE, SLOTS};

// k, the factor of the current rows: 5 for a 5 A module, else 1.
#[tactic(auto, using(common::proofs::Cases::cases), unfolding(crate::specs::Table::module_factor))]
pub fn module_factor(s: &[u32; SLOTS]) -> u32
    ensures { result ≡ module_factor s.now }
{
    if s[MODULE] == 1 { 5 } else { 1 }
}

// A column of the table with its current rows times k and its impedance rows times 5 / k.
fn times_k(column: [u32; SLOTS], k: u32) -> [u32; SLOTS]
    requires { (1 ≤ k) × (k ≤ 5) × Scalable column }
    ensures { result ≡ times_k k column }
{
    let inverse = 5 / k;
    let mut scaled = column;
    scaled[I_SET1] = column[I_SET1] * k;
    scaled[I_SET2] = column[I_SET2] * k;
    scaled[I_SET3] = column[I_SET3] * k;
    scaled[RESISTANCE] = column[RESISTANCE] * inverse;
    scaled[REACTANCE] = column[REACTANCE] * inverse;
    scaled
}

// Whether the number is low + a whole multiple of the step, up to high. A step is 1 or 100: no division by a number that is
// not known beforehand.
fn in_range(low: u32, high: u32, step: u32, x: u32) -> bool
    requires { (eqb step 1 || eqb step 100) ≡ true }
    ensures { result ≡ taken_by low high step x }
{
    if x < low {
        return false;
    }
    if high < x {
        return false;
    }
    if step == 1 {
        return true;
    }
    (x - low) % 100 == 0
}

// The lowest slot that is out of range, or the number of slots. The columns are made and scaled once, before the loop.
pub fn first_out_of_range(s: &[u32; SLOTS]) -> usize
    ensures { result ≡ first_out_of_range s.now }
{
    let k = module_factor(s);
    let lows = times_k(LOW, k);
    let highs = times_k(HIGH, k);
    let steps = STEP;
    for i in 0..SLOTS {
        if !in_range(lows[i], highs[i], steps[i], s[i]) {
            return i;
        }
    }
    SLOTS
}
