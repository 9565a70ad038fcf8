// A value on standard output.
use std::io;

pub(crate) fn value<R: Print>(rt: &R, v: Option<i64>) -> io::Result<()> {
    match v {
        None => println!(rt; "missing"),
        Some(z) => println!(rt; "{z}"),
    }
}
