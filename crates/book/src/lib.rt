// The book: a keeper with its numbers as rows, in the order in which they were sealed. Not a map: that a book is rows is a rule of the project (docs/DECISIONS.md, "Keepers and their memory").
#![tactic(auto)]

ghost use Rattle.std.specs.Prelude.{◌≡◌, ◌≤◌, vec_len, vec_capacity};
ghost use Rattle.keeper.specs.Keeping.{AllFit, held_count};
ghost use Rattle.keeper.specs.Bounding.{kept, positions};
ghost use Rattle.book.specs.Rows.{found};

use keeper::bounds::Bounds;
use row::Row;

mod keeping;
mod row;

// Its rows are as many as the positions that are filled, and have room for every position.
#[derive(Drop)]
pub struct Book {
    bounds: Bounds,
    rows: Vec<Row>,
    ghost inside: { AllFit (kept bounds (found rows.items)) },
    ghost counted: { vec_len rows ≡ held_count (kept bounds (found rows.items)) },
    ghost roomy: { positions bounds ≤ vec_capacity rows },
}
