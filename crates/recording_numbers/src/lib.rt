// A number and a float of four bytes, least byte first, as they stand in a file.
#![tactic(auto)]

ghost use Rattle.std.specs.Prelude.{◌≡◌, ◌+◌, ◌<◌, ◌≤◌, length};
ghost use Rattle.std.specs.Float.{binary32};
ghost use Rattle.std.specs.Float.Ieee.{of_bits};
ghost use Rattle.recording_numbers.specs.Numbers.{number_bytes, number_at, float_at};

// Bytes of a number.
pub const NUMBER: usize = 4;

// A byte as a number, with its bound, which callers go by.
pub fn wide(x: u8) -> u32
    ensures { (result ≡ x) × (result < 256) }
{
    x as u32
}

// The number of the four bytes from `at` on.
#[tactic(auto, unfolding(crate::specs::Numbers::number_at))]
pub fn number_at(bytes: &[u8], at: usize) -> u32
    requires { at + number_bytes ≤ length bytes.now }
    ensures { result ≡ number_at bytes.now at }
{
    u32::from_le_bytes([bytes[at], bytes[at + 1], bytes[at + 2], bytes[at + 3]])
}

// The pattern's float. A NaN is made by arithmetic, since `from_bits` is not defined at a NaN's pattern.
pub fn float_of(bits: u32) -> f32
    ensures { result ≡ of_bits binary32 bits }
{
    let zero: f32 = 0.0;
    if bits % 0x8000_0000 > 0x7F80_0000 {
        return zero / zero;
    }
    f32::from_bits(bits)
}

// The float of the four bytes from `at` on.
#[tactic(auto, unfolding(crate::specs::Numbers::float_at))]
pub fn float_at(bytes: &[u8], at: usize) -> f32
    requires { at + number_bytes ≤ length bytes.now }
    ensures { result ≡ float_at bytes.now at }
{
    float_of(number_at(bytes, at))
}
