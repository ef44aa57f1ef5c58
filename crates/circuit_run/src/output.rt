// What the program prints of a circuit: the lines of the journal, and a last line that tells how it ended.
ghost use Rattle.std.specs.Prelude.{◌≡◌, ◌++◌, Some, IfOk, string_bytes, OnOk};
ghost use Rattle.journal_lines.specs.Entries.{entry_line};
ghost use Rattle.runs.specs.Readings.{readings};
ghost use Rattle.circuit_run.specs.Output.{joined, last_line, output, Answered};

use crate::report::{Finish, Report};
use crate::run::run;
use journal::Journal;
use journal_lines::entry::Entry;
use journal_lines::lines::LONGEST_LINE;
use std::alloc::{AllocError, Global};
use std::fmt;
use text::stop::Stop;

// Adds the line of an entry.
fn add_entry(out: &mut Vec<u8>, entry: Entry) -> Result<(), AllocError>
    ensures { OnOk result (out.new.items ≡ out.old.items ++ entry_line entry) }
{
    let mut page = [0; LONGEST_LINE];
    let length = entry.write_line(&mut page).unwrap();
    out.extend_from_slice(&page[0..length])
}

// Adds the lines of a journal.
fn add_journal(out: &mut Vec<u8>, journal: &Journal) -> Result<(), AllocError>
    ensures { OnOk result (out.new.items ≡ out.old.items ++ joined (readings journal.now)) }
{
    // Entries are asked for by their numbers.
    for number in 1..=journal.len() {
        add_entry(out, journal.entry(number).unwrap())?;
    }
    Ok(())
}

// The last line: `E,entries,coins,width` or `R,line,number`. It prints itself, so that a program needs no memory for it.
#[derive(Clone, Copy)]
pub struct LastLine(pub Result<Finish, Stop>);

impl fmt::Display for LastLine {
    ghost output = { λ l. Some (last_line l.0) };

    fn fmt<W: fmt::Write>(&self, f: &mut fmt::Formatter<W>) -> fmt::Result {
        match self.0 {
            Ok(finish) => {
                let entries = finish.entries;
                let coins = finish.coins;
                let width = finish.width;
                write!(f, "E,{entries},{coins},{width}\n")
            }
            Err(stop) => {
                let line = stop.line;
                let number = stop.fault.number();
                write!(f, "R,{line},{number}\n")
            }
        }
    }
}

// The same as a text.
pub fn last_line(heap: Global, end: Result<Finish, Stop>) -> Result<String, AllocError>
    ensures { IfOk result (λ line. string_bytes line ≡ last_line end) }
{
    let line = LastLine(end);
    format!(in heap; "{line}")
}

// What is printed of a report.
pub fn print(heap: Global, report: &Report) -> Result<Vec<u8>, AllocError>
    ensures { IfOk result (λ out. out.items ≡ output report.now.journal report.now.end) }
{
    let mut out = Vec::new(heap);
    add_journal(&mut out, &report.journal)?;
    let line = last_line(heap, report.end)?;
    out.extend_from_slice(line.as_bytes())?;
    Ok(out)
}

// What the program answers to any text: the circuit is run, and its report printed.
pub fn answer(heap: Global, text: &[u8]) -> Result<Vec<u8>, AllocError>
    ensures { IfOk result (λ out. Answered text.now out.items) }
{
    let report = run(text);
    print(heap, &report)
}
