// Plays a circuit to a tableau and shows the journal, then the rows of the tableau, then how the circuit ended.
#![tactic(auto)]

use circuit::play::play;
use circuit_run::output::LastLine;
use circuit_run::report::Finish;
use circuit_run::run::{open, supply};
use circuit_text::reader::Reader;
use coins::source::CoinSource;
use coins::text::TextCoins;
use journal_lines::lines::LONGEST_LINE;
use pauli::fault::Fault;
use pauli::row::Row;
use phase::sheet::ValueSheet;
use session::session::Session;
use std::io;
use std::io::{Read, Write};
use tableau::tableau::Tableau;
use text::limits::ENOUGH;
use text::stop::{Stop, at};
use text::write;
use text::write::Field;

fn show_end(rt: &HostRuntime, end: Result<Finish, Stop>) -> io::Result<()> {
    print!(rt; "{}", LastLine(end))
}

// Prints a line that was written into the start of a page, which has room for every line.
fn show_line(rt: &HostRuntime, page: &[u8], written: Result<usize, Fault>) -> io::Result<()> {
    match written.ok().and_then(|length| page.get(..length)) {
        Some(line) => rt.stdout().write_all(line),
        None => Ok(()),
    }
}

fn show_entry(
    rt: &HostRuntime,
    session: &Session<Tableau, TextCoins>,
    entry: u32,
) -> io::Result<()> {
    let mut page = [0; LONGEST_LINE];
    let written = session.read(entry, &mut page);
    show_line(rt, &page, written)
}

fn show_journal(rt: &HostRuntime, session: &Session<Tableau, TextCoins>) -> io::Result<()> {
    // Entries are asked for by their numbers, and rows too.
    for entry in 1..=session.entries() {
        show_entry(rt, session, entry)?;
    }
    Ok(())
}

// A row's line: its number, D, S or J for its kind, its sign and its letters.
fn show_row(rt: &HostRuntime, size: u32, number: u32, kind: u8, row: Row) -> io::Result<()> {
    let mut page = [0; LONGEST_LINE];
    let letters = Field::Letters {
        size,
        label: row.label,
    };
    let fields = [
        Field::Number(number),
        Field::Mark(kind),
        Field::Sign(row.sign),
        letters,
    ];
    let written = write::line(&fields, &mut page);
    show_line(rt, &page, written)
}

// The mark that is printed, and no code for it.
fn kind_of(number: u32, pairs: u32) -> u8 {
    if number <= pairs {
        b'D'
    } else if number - pairs <= pairs {
        b'S'
    } else {
        b'J'
    }
}

fn show_rows(rt: &HostRuntime, point: &Tableau) -> io::Result<()> {
    let size = point.size();
    let pairs = size.saturating_sub(point.width());
    for number in 1..=point.count() {
        if let Some(row) = point.row(number) {
            show_row(rt, size, number, kind_of(number, pairs), row)?;
        }
    }
    Ok(())
}

// The first two lines: the tableau, its coins, and the reader of the lines after them.
fn begin(text: &[u8]) -> Result<(Reader, Tableau, TextCoins), Stop> {
    let mut reader = at(0, Reader::over(text))?;
    let point = open(&mut reader)?;
    let source = supply(&mut reader)?;
    Ok((reader, point, source))
}

fn show(rt: &HostRuntime, text: &[u8]) -> io::Result<()> {
    let (mut reader, point, source) = match begin(text) {
        Ok(begun) => begun,
        Err(stop) => return show_end(rt, Err(stop)),
    };
    let coins = source.left();
    let mut session = Session::open(point, source);
    let played = play(&mut session, &mut reader);
    let shown = show_journal(rt, &session);
    let finish = Finish {
        entries: session.entries(),
        coins: coins.saturating_sub(session.coins_left()),
        width: session.width(),
    };
    let (point, _source) = session.close();
    shown?;
    show_rows(rt, &point)?;
    show_end(rt, played.map(|()| finish))
}

fn main(rt: HostRuntime) -> anyhow::Result<()> {
    let mut text = Vec::new(rt.alloc());
    rt.stdin().take(ENOUGH).read_to_end(&mut text)?;
    show(&rt, text.as_slice())?;
    Ok(())
}
