// Rule 4: the tap, from the source that slot 5 names.
#![tactic(auto)]

ghost use Rattle.std.specs.Prelude.{◌≡◌};
ghost use Rattle.tap_position.specs.Positions.{ranged_of, bcd_of, position_of};

use slots::{N_L, N_R, SLOTS, TAP_SOURCE};

// Why a source gives no tap.
#[derive(Clone, Copy, PartialEq, Eq)]
pub enum TapError {
    // Units above 9 on the BCD lines.
    WrongCode,
    // Outside N_L to N_R.
    OutOfRange,
}

// A number that was read.
#[tactic(auto, using(common::proofs::Cases::cases), unfolding(crate::specs::Positions::ranged_of))]
fn ranged(s: &[u32; SLOTS], n: u32) -> Result<u32, TapError>
    ensures { result ≡ ranged_of s.now n }
{
    if (s[N_L] <= n) & (n <= s[N_R]) {
        Ok(n)
    } else {
        Err(TapError::OutOfRange)
    }
}

// The BCD lines: bits 0 to 3 are the units, 4 to 6 the tens.
#[tactic(auto, using(common::proofs::Cases::cases), unfolding(crate::specs::Positions::bcd_of))]
fn from_bcd(s: &[u32; SLOTS], lines: u8) -> Result<u32, TapError>
    ensures { result ≡ bcd_of s.now lines }
{
    let units = (lines % 16) as u32;
    let tens = (lines / 16 % 8) as u32;
    if 9 < units {
        Err(TapError::WrongCode)
    } else {
        ranged(s, 10 * tens + units)
    }
}

// Rule 4: the tap, 0 where none is read. `counted` is the counted tap as the tick starts.
#[tactic(auto, using(common::proofs::Cases::cases), unfolding(crate::specs::Positions::position_of))]
pub fn read_position(s: &[u32; SLOTS], bcd: u8, sensor: u8, counted: u32) -> Result<u32, TapError>
    ensures { result ≡ position_of s.now bcd sensor counted }
{
    match s[TAP_SOURCE] {
        1 => from_bcd(s, bcd),
        2 => ranged(s, sensor as u32),
        3 | 4 => Ok(counted),
        _ => Ok(0),
    }
}
