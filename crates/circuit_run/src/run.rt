// The circuit run: the lines of a text, in their order, over a tableau, the text's own coins and a session.
ghost use Rattle.std.specs.Prelude.{◌≡◌, true, [], is_err, Ok, Err, MatchResult};
ghost use Rattle.circuit_run.specs.Begun.{Missed, Opened, Supplied};
ghost use Rattle.circuit_run.specs.Runs.{Ran};

use crate::report::{Finish, Report};
use circuit::play::play;
use circuit_text::reader::Reader;
use coins::source::CoinSource;
use coins::text::TextCoins;
use journal::Journal;
use pauli::fault::Fault;
use phase::sheet::ValueSheet;
use session::session::Session;
use tableau::tableau::Tableau;
use text::stop::{Stop, at};

// Passes up a refusal of line 1 or 2. Where the text has ended there, no line is at fault but the text as a whole.
fn looked_for<T>(line: usize, res: Result<T, Fault>) -> Result<T, Stop>
    ensures { MatchResult res (λ x. result ≡ Ok x) (λ f. (e : Stop) × (result ≡ Err e) × Missed line f e) }
{
    res.map_err(|fault| {
        let line = if fault == Fault::TextEnded { 0 } else { line };
        Stop { line, fault }
    })
}

// Line 1: the tableau that it opens.
pub fn open(reader: &mut Reader) -> Result<Tableau, Stop>
    ensures text { reader.new.fields.text ≡ reader.old.fields.text }
    ensures line { Opened reader.old.fields.text.now reader.old.fields.at result reader.new.fields.at }
    ensures kept { is_err result ≡ true → reader.new ≡ reader.old }
{
    let mut lines = *reader;
    let opening = looked_for(1, lines.opening())?;
    let point = at(1, Tableau::open(opening.size, opening.width))?;
    *reader = lines;
    Ok(point)
}

// Line 2: its coins.
pub fn supply<'a>(reader: &mut Reader<'a>) -> Result<TextCoins<'a>, Stop>
    ensures text { reader.new.fields.text ≡ reader.old.fields.text }
    ensures line { Supplied reader.old.fields.text.now reader.old.fields.at result reader.new.fields.at }
    ensures kept { is_err result ≡ true → reader.new ≡ reader.old }
{
    let mut lines = *reader;
    let digits = looked_for(2, lines.coins())?;
    let source = at(2, TextCoins::over(digits))?;
    *reader = lines;
    Ok(source)
}

// Runs a text, and leaves the journal of what was done.
fn run_into(journal: &mut Journal, text: &[u8]) -> Result<Finish, Stop>
    requires { journal.old ≡ [] }
    ensures { Ran text.now journal.new result }
{
    let mut reader = at(0, Reader::over(text))?;
    let point = open(&mut reader)?;
    let source = supply(&mut reader)?;
    let coins = source.left();
    let mut session = Session::open(point, source);
    let played = play(&mut session, &mut reader);
    let finish = Finish {
        entries: session.entries(),
        coins: coins - session.coins_left(),
        width: session.width(),
    };
    let (_, _, entries) = session.into_parts();
    *journal = entries;
    played?;
    Ok(finish)
}

// Runs any text: its size is looked at first, and then the lines are taken in their order, up to the end or the first line refused.
// What earlier lines did stays.
pub fn run(text: &[u8]) -> Report
    ensures { Ran text.now result.journal result.end }
{
    let mut journal = Journal::new();
    let end = run_into(&mut journal, text);
    Report { journal, end }
}
