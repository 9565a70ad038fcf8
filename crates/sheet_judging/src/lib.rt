// The check of a setting sheet: each number against its range, then the order of the taps, and then whether the taps can be
// counted.
#![tactic(auto)]

ghost use Rattle.std.specs.Prelude.{◌≡◌, ◌↔◌, IsOk};
ghost use Rattle.sheet.specs.Sheet.{judge_of, passes_of, sheet_of, reply_of, returned_of};
ghost use Rattle.sheet.specs.Settings.{Settings};

use sheet::Refusal;
use slots::{CONTINUOUS, N_L, N_POS, N_R, SLOTS, TAP_SOURCE};

// The answer to a list of the right length.
#[tactic(auto, using(sheet::proofs::Answers::judging))]
fn judge(s: &[u32; SLOTS]) -> Result<(), Refusal>
    ensures { result ≡ judge_of s.now }
{
    let first = sheet_ranges::first_out_of_range(s);
    let right = s[N_R];
    let left = s[N_L];
    let pos = s[N_POS];
    let source = s[TAP_SOURCE];
    let continuous = s[CONTINUOUS] == 1;
    if first < SLOTS {
        return Err(Refusal::OutOfRange { slot: first as u32 });
    }
    if right <= left {
        return Err(Refusal::TapOrder { slot: N_R as u32 });
    }
    if (left <= pos) & (pos <= right) {
        if continuous & ((source == 3) | (source == 4)) {
            return Err(Refusal::CountedTap);
        }
        return Ok(());
    }
    Err(Refusal::TapOrder { slot: N_POS as u32 })
}

// Whether a list of the right length is taken.
#[tactic(auto, using(sheet::proofs::Answers::judging))]
pub fn passes(s: &[u32; SLOTS]) -> bool
    ensures { result ≡ passes_of s.now }
{
    judge(s).is_ok()
}

// The whole check of a list of any length: the list as an array where it is taken.
pub fn check_sheet(list: &[u32]) -> Result<[u32; SLOTS], Refusal>
    ensures each { result ≡ sheet_of list.now }
    ensures returned { reply_of result ≡ returned_of list.now }
    ensures exactly { IsOk result ↔ Settings list.now }
{
    let Ok(settings) = <&[u32; SLOTS]>::try_from(list) else {
        return Err(Refusal::WrongLength);
    };
    judge(settings)?;
    Ok(*settings)
}
