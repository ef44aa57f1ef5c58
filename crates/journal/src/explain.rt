// A whole text of journal lines, explained.
ghost use Rattle.std.specs.Prelude.{◌≡◌, [], ◌∷◌, ◌++◌, IfOk, string_bytes, OnOk};
ghost use Rattle.journal.specs.Explained.{stop_words, Explained};
ghost use Rattle.journal.specs.Words.{entry_words};

use crate::words::Words;
use journal_lines::entry::Entry;
use std::alloc::{AllocError, Global};
use text::read::Fields;

// The entries of a text of journal lines in plain words, one line each, up to the first line that is no entry's.
pub fn explain(heap: Global, text: &[u8]) -> Result<String, AllocError>
    ensures { IfOk result (λ told. Explained 1 text.now (string_bytes told)) }
{
    let mut told = String::new(heap);
    let mut fields = Fields { text, at: 0 };
    let mut line: usize = 1;
    // The reader moves on by itself; `line` counts for the reports.
    while fields.at < text.len() {
        match Entry::read(&mut fields) {
            Ok(entry) => {
                writeln!(told, "{}", Words(entry))?;
                line += 1;
            }
            Err(_) => {
                writeln!(told, "line {line} is not a journal entry")?;
                return Ok(told);
            }
        }
    }
    Ok(told)
}
