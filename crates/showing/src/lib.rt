// The outputs, by field.
#![tactic(auto)]

ghost use Rattle.std.specs.Prelude.{◌≡◌};
ghost use Rattle.showing.specs.Showing.{is_low, is_high, counted_of, signals_of, fields_of, outputs_of};

use blocks::Blocks;
use busbar_level::Level;
use drive::Drive;
use fault::Latch;
use slots::{N_MAX, SLOTS, SUPPLY_TRIP, T7, T8, WEAR_COUNT};
use tap_position::TapError;

// The number of output fields.
pub const FIELDS: usize = 28;

// What the outputs show. `counted_error`: the counted tap stepped past an end; `before`: the fault's age before this tick.
#[derive(Clone, Copy)]
pub struct Shown {
    pub automatic: bool,
    pub section: bool,
    pub position: Result<u32, TapError>,
    pub counted_error: bool,
    pub trips: [bool; 7],
    pub blocks: Blocks,
    pub level: Option<Level>,
    pub latch: Latch,
    pub before: u32,
    pub drive: Drive,
    pub operations: u32,
}

fn is_low(l: Option<Level>) -> bool
    ensures { result ≡ is_low l }
{
    l == Some(Level::Low)
}

fn is_high(l: Option<Level>) -> bool
    ensures { result ≡ is_high l }
{
    l == Some(Level::High)
}

// The operations, shown as 0 where the wear count is off.
fn shown_operations(counts: bool, n: u32) -> u32
    ensures { result ≡ counted_of counts n }
{
    if counts { n } else { 0 }
}

// What the outputs show of the command, the level, the fault and the drive. `field`: that of the latched fault, 0 for none.
#[derive(Clone, Copy)]
struct Signals {
    raise: bool,
    lower: bool,
    low: bool,
    high: bool,
    field: u32,
    supply: bool,
    rests: bool,
    operations: u32,
}

fn signals_of(s: &[u32; SLOTS], x: Shown) -> Signals
    ensures { result ≡ signals_of s.now x }
{
    let on = drive_shown::command_on(x.drive, s[T7]);
    let fault = x.latch.fault;
    Signals {
        raise: ways::to_raise(on),
        lower: ways::to_lower(on),
        low: is_low(x.level),
        high: is_high(x.level),
        field: fault::fault_field(fault),
        supply: fault_latch::supply_trip(fault, x.before, s[T8], s[SUPPLY_TRIP] == 1),
        rests: drive_follow::rests(x.drive),
        operations: shown_operations(s[WEAR_COUNT] == 1, x.operations),
    }
}

fn fields(s: &[u32; SLOTS], x: Shown, g: Signals) -> [u32; FIELDS]
    ensures { result ≡ fields_of s.now x g }
{
    let p = x.position;
    let tap = p.unwrap_or(0);
    let wrong_code = p == Err(TapError::WrongCode);
    let range_error = p == Err(TapError::OutOfRange);
    let t = x.trips;
    let b = x.blocks;
    [
        g.raise as u32, // 0 raise
        g.lower as u32, // 1 lower
        x.section as u32, // 2 section
        tap, // 3 tap
        wrong_code as u32, // 4 wrong code
        (range_error | x.counted_error) as u32, // 5 range error
        t[0] as u32, // 6 I_high over I_set1
        t[1] as u32, // 7 I_bus over I_set2
        t[2] as u32, // 8 I_bus under I_set3
        t[3] as u32, // 9 U_AB over U_set1
        t[4] as u32, // 10 U_AB under U_set2
        t[5] as u32, // 11 3U0 over U_set3
        t[6] as u32, // 12 U2 over U_set4
        b.automatic as u32, // 13 automatic blocked
        b.manual as u32, // 14 manual blocked
        b.raise as u32, // 15 raise blocked
        b.lower as u32, // 16 lower blocked
        g.low as u32, // 17 low
        g.high as u32, // 18 high
        (g.field == 19) as u32, // 19 run-away
        (g.field == 20) as u32, // 20 not started
        (g.field == 21) as u32, // 21 long
        (g.field == 22) as u32, // 22 fast
        g.supply as u32, // 23 supply trip
        (!g.rests) as u32, // 24 asked or moving
        g.operations, // 25 operations
        ((s[WEAR_COUNT] == 1) & (s[N_MAX] <= x.operations)) as u32, // 26 operations at least N_max
        x.automatic as u32, // 27 automatic
    ]
}

// The outputs of a tick.
pub fn show(s: &[u32; SLOTS], x: Shown) -> [u32; FIELDS]
    ensures { result ≡ outputs_of s.now x }
{
    fields(s, x, signals_of(s, x))
}
