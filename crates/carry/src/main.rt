// Carries the row that standard input names through the gates that follow it, and prints the row after each.
#![tactic(auto)]

use carrying::carry::carry;
use carrying::rows::row_line;
use pauli::row::Row;
use std::io;
use std::io::{Read, Write};
use text::limits::ENOUGH;
use text::stop::Stop;

// The longest line of a row: a sign, a comma, 64 letters and a line feed.
const LINE: usize = 67;

fn show_row(rt: &HostRuntime, size: u32, row: Row) -> io::Result<()> {
    let mut page = [0u8; LINE];
    match row_line(size, row, &mut page) {
        Ok(len) => rt.stdout().write_all(&page[0..len]),
        Err(_) => Ok(()),
    }
}

fn main(rt: HostRuntime) -> anyhow::Result<()> {
    let mut text = Vec::new(rt.alloc());
    rt.stdin().take(ENOUGH).read_to_end(&mut text)?;
    let report = carry(rt.alloc(), text.as_slice())?;
    for row in report.rows.iter() {
        show_row(&rt, report.size, *row)?;
    }
    match report.ending {
        Ok(()) => {
            let gates = report.rows.len();
            println!(rt; "E,{gates}")?
        }
        Err(Stop { line, fault }) => {
            let number = fault.number();
            println!(rt; "R,{line},{number}")?
        }
    }
    Ok(())
}
