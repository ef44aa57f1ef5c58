// Where and why the reading of a text stopped.
ghost use Rattle.std.specs.Prelude.{◌≡◌, Ok, Err, MatchResult};
ghost use Rattle.text.specs.Stops.{stop};

use pauli::fault::Fault;

// The line that was refused, and by what. Line 0 stands for the text as a whole.
#[derive(Clone, Copy, PartialEq, Eq, Debug)]
pub struct Stop {
    pub line: usize,
    pub fault: Fault,
}

// Passes a refusal up with the line that caused it.
pub fn at<T>(line: usize, res: Result<T, Fault>) -> Result<T, Stop>
    ensures { MatchResult res (λ x. result ≡ Ok x) (λ f. result ≡ Err (stop line f)) }
{
    res.map_err(|fault| Stop { line, fault })
}
