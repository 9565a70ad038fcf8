// The record that a setting sheet gives: the fresh one, or one of zeros where the sheet is refused.
#![tactic(auto)]

ghost use Rattle.std.specs.Prelude.{◌≡◌, true, ◌↔◌, IsOk, IfOk};
ghost use Rattle.sheet.specs.Settings.{Settings};
ghost use Rattle.record_starting.specs.Starting.{local_keys, idle_of, fresh_state, fresh_of, zeros_of, record_of, replied_of, start_of};
ghost use Rattle.record_limits.specs.Limits.{within_of};

use acting_accounting::Wear;
use command::Memory;
use drive::Drive;
use fault::Latch;
use keys::{Buttons, Keys};
use organ::Organ;
use record::{Regulator, State};
use sheet::Refusal;
use slots::{N_POS, N_START, SLOTS};

// Local mode, and all four buttons pressed or none.
fn local_keys(pressed: bool) -> Keys
    ensures { result ≡ local_keys pressed }
{
    let buttons = Buttons {
        raise: pressed,
        lower: pressed,
    };
    Keys {
        panel: buttons,
        dispatcher: buttons,
        remote: false,
    }
}

// A state with nothing going on.
fn idle(counted_tap: u32, operations: u32, pressed: bool) -> State
    ensures { result ≡ idle_of counted_tap operations pressed }
{
    let cleared = Organ {
        marked: false,
        count: 0,
    };
    State {
        organs: [cleared; 7],
        drive: Drive::Resting,
        latch: Latch {
            fault: None,
            age: 0,
        },
        memory: Memory {
            wait: None,
            repeat: None,
            keys: local_keys(pressed),
            remembered: None,
        },
        wear: Wear {
            last: None,
            operations,
            counted_tap,
        },
    }
}

// At rest, no organ marked, nothing latched or waiting, no last direction or automatic command, the counted tap and the
// operations of the sheet, local mode, both buttons of each pair remembered as pressed.
pub fn fresh_state(s: &[u32; SLOTS]) -> State
    ensures { result ≡ fresh_state s.now }
{
    idle(s[N_POS], s[N_START], true)
}

// The fresh record of a sheet.
#[tactic(auto, unfolding(crate::specs::Starting::fresh_of))]
pub fn fresh(settings: [u32; SLOTS]) -> Regulator
    ensures { result ≡ fresh_of settings }
{
    let state = fresh_state(&settings);
    Regulator { settings, state }
}

// The record of zeros that a refused sheet gives.
#[tactic(auto, unfolding(crate::specs::Starting::zeros_of))]
pub fn zeros() -> Regulator
    ensures { result ≡ zeros_of }
{
    Regulator {
        settings: [0; SLOTS],
        state: idle(0, 0, false),
    }
}

// The record of a list of any length, within its limits, or why the list is refused; the list is left as it was.
pub fn start(list: &[u32]) -> Result<Regulator, Refusal>
    ensures reply { replied_of result ≡ start_of list.now }
    ensures exactly { IsOk result ↔ Settings list.now }
    ensures lasting { IfOk result (λ r. within_of r ≡ true) }
{
    let settings = sheet_judging::check_sheet(list)?;
    Ok(fresh(settings))
}

// The record of an answer, of zeros where the list is refused.
pub fn record_of(answer: Result<Regulator, Refusal>) -> Regulator
    ensures { result ≡ record_of answer }
{
    match answer {
        Ok(record) => record,
        Err(_) => zeros(),
    }
}
