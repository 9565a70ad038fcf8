// The slots of the setting sheet, by name. A run of slots has the name of its first; `specs/Slots.antt` has the same names.
#![tactic(auto)]

pub const SLOTS: usize = 68;

pub const IN_SERVICE: usize = 0;

pub const MODULE: usize = 1;

pub const SECTION_NEEDS_CURRENT: usize = 2;

pub const COMPENSATION: usize = 3;

pub const COMPENSATION_CURRENT: usize = 4;

pub const TAP_SOURCE: usize = 5;
// Seven: organs 6 to 12.
pub const ORGANS_ON: usize = 6;

pub const CURRENT_ORGANS: usize = 13;

pub const VOLTAGE_ORGANS: usize = 14;

pub const END_TAP_BLOCK: usize = 15;

pub const SUPPLY_TRIP: usize = 16;

pub const WEAR_COUNT: usize = 17;

pub const ORGANS_BLOCK_MANUAL: usize = 18;
// Four: U_supp 1 to 4.
pub const U_SUPP: usize = 19;

pub const D_U: usize = 23;

pub const U_COMP: usize = 24;
// Seven: I_set1 to 3, U_set1 to 4.
pub const ORGAN_LIMITS: usize = 25;

pub const I_SET1: usize = 25;

pub const I_SET2: usize = 26;

pub const I_SET3: usize = 27;

pub const U_SET5: usize = 32;

pub const T1: usize = 33;

pub const T2: usize = 34;

pub const T3: usize = 35;

pub const T4: usize = 36;

pub const T5: usize = 37;

pub const T6: usize = 38;

pub const T7: usize = 39;

pub const T8: usize = 40;
// Seven: T9 to T15.
pub const ORGAN_DELAYS: usize = 41;

pub const N_POS: usize = 48;

pub const N_R: usize = 49;

pub const N_L: usize = 50;

pub const N_START: usize = 51;

pub const N_MAX: usize = 52;
// Ten.
pub const SLIDING_TAPS: usize = 53;
// The kind of drive: 0 with a switching contact, 1 without one, regulated continuously.
pub const CONTINUOUS: usize = 63;
// The line's R and X in mΩ.
pub const RESISTANCE: usize = 64;

pub const REACTANCE: usize = 65;
// The current transformer's and the breaker's primary rating in A.
pub const CT_RATING: usize = 66;

pub const BREAKER_RATING: usize = 67;
