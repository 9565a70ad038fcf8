// One recorded tick from its bytes: the readings, the contacts, the BCD byte and the sensor byte.
#![tactic(auto)]

ghost use Rattle.std.specs.Prelude.{◌≡◌, ◌+◌, ◌≤◌, ◌<◌, IfSome, length};
ghost use Rattle.recording_ticks.specs.Recorded.{readings, contacts_at, tick_bytes, nth_reading, phasor_at, phasors_at, input_at, bad_place, decoded_of};

use input::Input;
use measure::Reading;
use phasor::{Phasor, Phasors};
use recording_numbers::NUMBER;

const READINGS: usize = 12;

// The first reading of the pairs.
const PAIRED: usize = 6;

// The highest quality byte: Invalid.
const INVALID: u8 = 2;

// Bytes of one reading: its quality and its float.
const READING: usize = 1 + NUMBER;

// Where the contacts stand, after the readings; then the BCD byte and the sensor byte.
const CONTACTS: usize = READINGS * READING;

const BCD: usize = CONTACTS + NUMBER;

const SENSOR: usize = BCD + 1;

// Bytes of one tick.
pub const TICK: usize = SENSOR + 1;

// Why the bytes from a place on are no tick: the first quality byte above 2 stands at this place of it, or they are too few.
#[derive(Clone, Copy, PartialEq, Eq)]
pub enum DecodeError {
    BadQuality { place: usize, byte: u8 },
    CutShort,
}

// Bytes that hold a whole tick from a place on.
#[derive(Clone, Copy)]
struct TickBytes<'a> {
    bytes: &'a [u8],
    at: usize,
    ghost whole: { at + tick_bytes ≤ length bytes.now },
}

impl TickBytes<'_> {
    // The ith reading.
    #[tactic(auto, unfolding(crate::specs::Recorded::reading_at))]
    fn reading(&self, i: usize) -> Reading
        requires { i < readings }
        ensures { result ≡ nth_reading self.now.bytes.now self.now.at i }
    {
        let place = self.at + READING * i;
        let quality = recording_numbers::wide(self.bytes[place]);
        quality::reading_by(quality, recording_numbers::float_at(self.bytes, place + 1))
    }

    // The ith reading and the next as a pair.
    #[tactic(auto, unfolding(crate::specs::Recorded::phasor_at))]
    fn phasor(&self, i: usize) -> Phasor
        requires { i + 1 < readings }
        ensures { result ≡ phasor_at self.now.bytes.now self.now.at i }
    {
        let re = self.reading(i);
        let im = self.reading(i + 1);
        Phasor { re, im }
    }

    #[tactic(auto, unfolding(crate::specs::Recorded::phasors_at))]
    fn phasors(&self) -> Phasors
        ensures { result ≡ phasors_at self.now.bytes.now self.now.at }
    {
        Phasors {
            u_ab: self.phasor(PAIRED),
            i_bus: self.phasor(PAIRED + 2),
            i_coupler: self.phasor(PAIRED + 4),
        }
    }

    #[tactic(auto, unfolding(crate::specs::Recorded::input_at))]
    fn input(&self) -> Input
        ensures { result ≡ input_at self.now.bytes.now self.now.at }
    {
        Input {
            u_ab: self.reading(0),
            u0: self.reading(1),
            u2: self.reading(2),
            i_high: self.reading(3),
            i_bus: self.reading(4),
            i_coupler: self.reading(5),
            phasors: self.phasors(),
            contacts: recording_numbers::number_at(self.bytes, self.at + CONTACTS),
            bcd: self.bytes[self.at + BCD],
            sensor: self.bytes[self.at + SENSOR],
        }
    }

    // The place of the first quality byte above 2.
    #[tactic(auto, using(crate::proofs::Bad::turns))]
    fn bad_place(&self) -> Option<usize>
        ensures place { result ≡ bad_place self.now.bytes.now self.now.at }
        ensures within { IfSome result (λ place. place < contacts_at) }
    {
        for i in 0..READINGS {
            if self.bytes[self.at + READING * i] > INVALID {
                return Some(READING * i);
            }
        }
        None
    }
}

// The tick of the bytes from `at` on. An Invalid reading's float is ignored.
#[tactic(auto, using(crate::proofs::Made::decoded))]
pub fn decode_tick(bytes: &[u8], at: usize) -> Result<Input, DecodeError>
    ensures { result ≡ decoded_of bytes.now at }
{
    if bytes.len() < at || bytes.len() - at < TICK {
        return Err(DecodeError::CutShort);
    }
    let tick = TickBytes { bytes, at };
    match tick.bad_place() {
        Some(place) => Err(DecodeError::BadQuality {
            place,
            byte: bytes[at + place],
        }),
        None => Ok(tick.input()),
    }
}
