// What rows of the pattern mean, which rows there are to begin with, and how the pattern is tested.
ghost use Rattle.tableau_laws.specs.Laws.{MeaningLaw, SameLaw, OpeningLaw, TestLaw};

// Rows of the pattern mean a lawful value sheet: its centre is the products of stabilizers, and each Jordan-Wigner row times it is a ray.
// The places beyond the rows mean nothing.
pub fn rows_mean_a_sheet()
    ensures meaning { MeaningLaw }
    ensures same { SameLaw }
{}

// The opening rows are of the pattern, for every size and width.
pub fn openings_are_tableaus()
    ensures { OpeningLaw }
{}

// The test of given rows, pair by pair, passes rows of the pattern and no others.
pub fn tests_tell_the_pattern()
    ensures { TestLaw }
{}
