// The snapshot: a copy of a tableau's rows that answers and never changes.
ghost use Rattle.std.specs.Prelude.{◌≡◌, true};
ghost use Rattle.tableau_rows.specs.Held.{pattern_in};

use tableau_rows::store::RowStore;

#[derive(Clone, Copy)]
pub struct Snapshot {
    pub(crate) rows: RowStore,
    ghost pattern: { pattern_in rows ≡ true },
}

pub mod sheet;
