// A setting sheet from the bytes of its file.
#![tactic(auto)]

ghost use Rattle.std.specs.Prelude.{◌≡◌, length};
ghost use Rattle.sheet.specs.Sheet.{number_of};
ghost use Rattle.record_starting.specs.Starting.{replied_of, start_of};
ghost use Rattle.recording_sheets.specs.SheetFile.{sheet_bytes, numbers_of, sheet_file_of, list_of};

use record::Regulator;
use recording_numbers::NUMBER;
use sheet::Refusal;
use slots::SLOTS;

// Bytes of a sheet's file.
pub const SHEET: usize = NUMBER * SLOTS;

// The numbers of a file that is as long as a sheet's.
fn numbers_of(bytes: &[u8]) -> [u32; SLOTS]
    requires { length bytes.now ≡ sheet_bytes }
    ensures { result ≡ numbers_of bytes.now }
{
    let mut list = [0; SLOTS];
    for i in 0..SLOTS {
        list[i] = recording_numbers::number_at(bytes, NUMBER * i);
    }
    list
}

// The numbers of a sheet's file, none where it is not as long as a sheet's.
fn decode_sheet(bytes: &[u8]) -> Option<[u32; SLOTS]>
    ensures { result ≡ sheet_file_of bytes.now }
{
    if bytes.len() != SHEET {
        return None;
    }
    Some(numbers_of(bytes))
}

// The record of a sheet's file, or why it is refused: a file of another length is a list of another length.
pub fn start(bytes: &[u8]) -> Result<Regulator, Refusal>
    ensures reply { replied_of result ≡ start_of (list_of bytes.now) }
    ensures refused { (length bytes.now ≡ sheet_bytes → ⊥) → number_of result ≡ 1 }
{
    match decode_sheet(bytes) {
        Some(numbers) => record_starting::start(&numbers),
        None => record_starting::start(&[]),
    }
}
