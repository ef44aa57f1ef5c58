// Whether given rows are of the tableau pattern. Every two rows are compared, since any two may break it.
ghost use Rattle.std.specs.Prelude.{◌≡◌, ◌+◌, ◌<◌, ◌≤◌, length};
ghost use Rattle.tableau_laws.specs.Places.{all_below};
ghost use Rattle.tableau_laws.specs.Patterns.{meets, place_ok, sum_ok, signs_ok};
ghost use Rattle.tableau_rows.specs.Parts.{row_in};

use crate::store::ZERO_LABEL;
use pauli::row::Row;

// The rules speak of places among all the rows, so all of them are passed here, and m and w beside them.

// Whether the rows at places j and i, j before i, are to anticommute: a destabilizer and its own stabilizer, or two Jordan-Wigner rows.
fn meets(pairs: usize, j: usize, i: usize) -> bool
    requires { pairs ≤ 64 }
    ensures { result ≡ meets pairs j i }
{
    (j < pairs && i == pairs + j) || pairs + pairs <= j
}

// Whether the row at place i is of n qubits, and stands to each row before it as it is to.
fn place_ok(n: u32, pairs: usize, rows: &[Row], i: usize) -> bool
    requires { (pairs ≤ 64) × (i < length rows.now) }
    ensures { result ≡ place_ok n pairs (row_in rows.now) i }
{
    let label = rows[i].label;
    let stands = |(j, row): (usize, &Row)| row.label.anticommutes(label) == meets(pairs, j, i);
    label.fits(n) && rows[..i].iter().enumerate().all(stands)
}

// By place, since each row is held against those before it.
pub(crate) fn places_ok(n: u32, pairs: usize, rows: &[Row]) -> bool
    requires { pairs ≤ 64 }
    ensures { result ≡ all_below (length rows.now) (place_ok n pairs (row_in rows.now)) }
{
    (0..rows.len()).all(|i| place_ok(n, pairs, rows, i))
}

// Whether the Jordan-Wigner labels, from place 2m on, sum to the zero label.
pub(crate) fn sum_ok(pairs: usize, width: usize, rows: &[Row]) -> bool
    requires { (pairs + pairs + width + width + 1 ≤ length rows.now) × ((pairs ≤ 64) × (width ≤ 64)) }
    ensures { result ≡ sum_ok pairs width (row_in rows.now) }
{
    let mut sum = ZERO_LABEL;
    for row in &rows[pairs + pairs..pairs + pairs + width + width + 1] {
        sum = row.label.product(sum);
    }
    sum == ZERO_LABEL
}

// Whether destabilizers have the sign plus, and at width 0 the one Jordan-Wigner row too.
pub(crate) fn signs_ok(pairs: usize, width: usize, rows: &[Row]) -> bool
    requires { (pairs + pairs < length rows.now) × (pairs ≤ 64) }
    ensures { result ≡ signs_ok pairs width (row_in rows.now) }
{
    let last = 0 < width || !rows[pairs + pairs].sign;
    last && rows[..pairs].iter().all(|row| !row.sign)
}
