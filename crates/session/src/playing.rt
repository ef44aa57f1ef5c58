// Whole runs: any list of calls to a session just opened.
ghost use Rattle.std.specs.Prelude.{◌≡◌, [], take, drop};
ghost use Rattle.runs.specs.Promises.{Played};
ghost use Rattle.runs.specs.States.{state};
ghost use Rattle.session.specs.Room.{made};
ghost use Rattle.session.specs.Seen.{seen};

use crate::session::Session;
use coins::source::CoinSource;
use pauli::fault::Fault;
use phase::point::PhasePoint;
use phase::sheet::ValueSheet;
use runs::answer::Answer;
use runs::call::Call;

// Opens a session and makes the calls in their order, as many as there is room for answers. The promises about every run hold
// at each moment of it.
pub fn play<P: PhasePoint, S: CoinSource>(
    point: P,
    source: S,
    calls: &[Call],
    answers: &mut [Result<Answer, Fault>],
) -> Session<P, S>
    ensures played { Played (state (P.ValueSheet.sheet point) (S.coins source) [])
        (take (made calls.now answers.old) calls.now)
        (take (made calls.now answers.old) answers.new)
        (seen P.ValueSheet.sheet S.coins result) }
    ensures rest { drop (made calls.now answers.old) answers.new
        ≡ drop (made calls.now answers.old) answers.old }
{
    let mut session = Session::open(point, source);
    // The answers by their index: of a zip with `answers.iter_mut()` a proof knows no answer once it is over.
    for (i, call) in calls.iter().enumerate().take(answers.len()) {
        answers[i] = session.call(*call);
    }
    session
}
