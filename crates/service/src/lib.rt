// The library for what the sealed unit does not run, for a host in C or Rust: the journal's text. A header for C is
// to come.
#![tactic(auto)]

ghost use Rattle.std.specs.Prelude.{◌≡◌, length};
ghost use Rattle.journal.specs.Texts.{writer_answer, buffer_after};
ghost use Rattle.journal.specs.Reading.{reader_answer, list_after};

use journal::{NumbersRead, TextWritten};

// The one text of a journal, given as its numbers, at the front of the lent buffer; the list is left as it was. The clauses are
// `write_journal`'s.
#[unsafe(no_mangle)]
pub extern "C" fn avr_journal_write(list: &[u32], buffer: &mut [u8]) -> TextWritten
    ensures answer { result ≡ writer_answer list.now (length buffer.old) }
    ensures text { buffer.new ≡ buffer_after list.now buffer.old }
{
    journal_writing::write_journal(list, buffer)
}

// The numbers of a journal's text at the front of the lent list; the text is left as it was. The clauses are `read_journal`'s.
#[unsafe(no_mangle)]
pub extern "C" fn avr_journal_read(text: &[u8], list: &mut [u32]) -> NumbersRead
    ensures answer { result ≡ reader_answer text.now (length list.old) }
    ensures numbers { list.new ≡ list_after text.now list.old }
{
    journal_reading::read_journal(text, list)
}
