// Rule 7: what an ended move leaves: the last direction, the operations, the counted tap. Without a switching contact an ended
// command leaves an operation.
#![tactic(auto)]

ghost use Rattle.std.specs.Prelude.{◌≡◌};
ghost use Rattle.acting_accounting.specs.Accounting.{operations_of, accounted_of};

use slots::{SLOTS, WEAR_COUNT};
use ways::Direction;

// The count of operations is held there.
pub const MOST_OPERATIONS: u32 = 999_999;

// What ended moves leave in the record: the last direction, the operations, the counted tap.
#[derive(Clone, Copy)]
pub struct Wear {
    pub last: Option<Direction>,
    pub operations: u32,
    pub counted_tap: u32,
}

// The same after this tick, and whether the counted tap stayed at an end.
#[derive(Clone, Copy)]
pub struct Accounted {
    pub wear: Wear,
    pub range_error: bool,
}

// One operation more where one ends, held at 999,999, if the wear count is on.
#[tactic(auto, using(common::proofs::Cases::cases), unfolding(crate::specs::Accounting::one_more_of, crate::specs::Accounting::operations_of))]
fn count_operation(s: &[u32; SLOTS], n: u32, operation: bool) -> u32
    ensures { result ≡ operations_of s.now n operation }
{
    let counts = s[WEAR_COUNT] == 1;
    if operation & counts {
        n.saturating_add(1).min(MOST_OPERATIONS)
    } else {
        n
    }
}

#[tactic(auto, unfolding(crate::specs::Accounting::accounted_of))]
pub fn account(s: &[u32; SLOTS], ended: Option<Direction>, operation: bool, w: Wear) -> Accounted
    ensures { result ≡ accounted_of s.now ended operation w }
{
    let counted = tap_counted::count_move(s, w.counted_tap, ended);
    Accounted {
        wear: Wear {
            last: ways::newer(ended, w.last),
            operations: count_operation(s, w.operations, operation),
            counted_tap: counted.tap,
        },
        range_error: counted.range_error,
    }
}
