// Files, read from their start or from where the last read ended, until a buffer is full.
#![tactic(auto)]

ghost use Rattle.std.specs.Prelude.{IfSome, IsUtf8};
ghost use Rattle.files.specs.Counts.{IsPrefixLen};

use std::fs::File;
use std::io::Read;
use std::rt::Files;

// How many bytes came, and whether a read failed after them. Both count at once: the bytes that came before a failure are used too.
#[derive(Clone, Copy)]
pub struct Filled {
    pub got: usize,
    pub failed: bool,
}

// Reads until the buffer is full, the file ends or a read fails. A read may bring less than is asked for.
pub fn fill<F: Read>(file: &mut F, buffer: &mut [u8]) -> Filled
    ensures { IsPrefixLen result.got buffer.new }
{
    let mut got: usize = 0;
    while got < buffer.len() {
        match file.read(&mut buffer[got..]) {
            Ok(0) => return Filled { got, failed: false },
            Ok(more) => got += more,
            Err(_) => return Filled { got, failed: true },
        }
    }
    Filled { got, failed: false }
}

// The file of this name, to be read. The library takes no name that is not UTF-8, so such a file is none.
pub fn open<R: Files>(rt: &R, path: &[u8]) -> Option<R::File>
    ensures { IfSome result (λ file. IsUtf8 path.now) }
{
    let name = str::from_utf8(path).ok()?;
    File::open(rt, name).ok()
}

// The file of this name from its start on. One that cannot be opened brings nothing, and counts as a read that failed.
pub fn read_file<R: Files>(rt: &R, path: &[u8], buffer: &mut [u8]) -> Filled
    ensures { IsPrefixLen result.got buffer.new }
{
    match open(rt, path) {
        Some(mut file) => fill(&mut file, buffer),
        None => Filled {
            got: 0,
            failed: true,
        },
    }
}
