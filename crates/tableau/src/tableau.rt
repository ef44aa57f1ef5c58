// The tableau: rows of the pattern.
ghost use Rattle.std.specs.Prelude.{◌≡◌, true};
ghost use Rattle.tableau_rows.specs.Held.{pattern_in};

use tableau_rows::store::RowStore;

#[derive(Clone, Copy)]
pub struct Tableau {
    rows: RowStore,
    ghost pattern: { pattern_in rows ≡ true },
}

pub mod calls;
pub mod point;
