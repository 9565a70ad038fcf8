// What rule 6 takes of readings: the number of a Good one, in mV or mA, and the current of the compensation, of numbers or of pairs.
#![tactic(auto)]

ghost use Rattle.std.specs.Prelude.{◌≡◌, ℤ, ◌+ℤ◌, ◌-ℤ◌};
ghost use Rattle.busbar_current.specs.Current.{reading_of, good_of, both, wrapped, parts, picked_of, current_of};

use measure::Measured;
use phasor::Vector;
use slots::{COMPENSATION_CURRENT, SLOTS};

// 200 V, or 200 A of a 5 A module: no reading is above it.
const MOST_READING: u32 = 200_000;

// What slot 4 picks or joins: a number, or a pair, which is joined part by part. Of numbers that are no larger than a reading the sum
// and the difference are exact; of any others they are what 64 bits hold.
pub trait Quantity: Copy {
    // Two of them joined, by what joins two numbers.
    ghost by: { (ℤ → ℤ → ℤ) → Self → Self → Self };

    fn sum(self, other: Self) -> Self
        ensures { result ≡ by ◌+ℤ◌ self other };

    fn difference(self, other: Self) -> Self
        ensures { result ≡ by ◌-ℤ◌ self other };
}

impl Quantity for i64 {
    ghost by = { wrapped };

    #[tactic(auto, using(std::proofs::lemmas::Int::wrapping_add_is))]
    fn sum(self, other: i64) -> i64 {
        self.wrapping_add(other)
    }

    #[tactic(auto, using(std::proofs::lemmas::Int::wrapping_sub_is))]
    fn difference(self, other: i64) -> i64 {
        self.wrapping_sub(other)
    }
}

impl Quantity for Vector {
    ghost by = { λ f. parts (wrapped f) };

    fn sum(self, other: Vector) -> Vector {
        Vector {
            re: self.re.sum(other.re),
            im: self.im.sum(other.im),
        }
    }

    fn difference(self, other: Vector) -> Vector {
        Vector {
            re: self.re.difference(other.re),
            im: self.im.difference(other.im),
        }
    }
}

// A reading's number. One above what a reading can be is missing.
#[tactic(auto, using(crate::proofs::Values::values))]
fn reading(n: u32) -> Option<i64>
    ensures { result ≡ reading_of n }
{
    if n <= MOST_READING {
        Some(n as i64)
    } else {
        None
    }
}

// The number of a Good reading; a Held one counts as missing here.
#[tactic(auto, unfolding(crate::specs::Current::good_of))]
pub fn good(m: Measured) -> Option<i64>
    ensures { result ≡ good_of m }
{
    match m {
        Measured::Good(n) => reading(n),
        _ => None,
    }
}

// The current that slot 4 picks of two; only those that it names are needed.
#[tactic(auto, using(common::proofs::Cases::cases), unfolding(crate::specs::Current::picked_of, crate::specs::Current::both))]
pub fn pick<Q: Quantity>(s: &[u32; SLOTS], bus: Option<Q>, coupler: Option<Q>) -> Option<Q>
    ensures { result ≡ picked_of (λ f. both (Q.by f)) s.now bus coupler }
{
    match s[COMPENSATION_CURRENT] {
        0 => bus,
        1 => coupler,
        2 => Some(bus?.difference(coupler?)),
        _ => Some(bus?.sum(coupler?)),
    }
}

// The current I of the compensation.
#[tactic(auto, using(crate::proofs::Values::values))]
pub fn current(s: &[u32; SLOTS], i_bus: Measured, i_coupler: Measured) -> Option<i64>
    ensures { result ≡ current_of s.now i_bus i_coupler }
{
    pick(s, good(i_bus), good(i_coupler))
}
