// The grid: a keeper with one cell for each position.
#![tactic(auto)]

ghost use Rattle.std.specs.Prelude.{◌≡◌, vec_len};
ghost use Rattle.keeper.specs.Bounding.{kept, positions};
ghost use Rattle.keeper.specs.Keeping.{AllFit, held_count};
ghost use Rattle.grid.specs.Cells.{in_cells};

use keeper::bounds::Bounds;

mod keeping;

// There are as many cells as positions, and `filled` of them hold a number. It is counted along: to count them at each question is to look at every cell.
#[derive(Drop)]
pub struct Grid {
    bounds: Bounds,
    cells: Vec<Option<u32>>,
    filled: usize,
    ghost inside: { AllFit (kept bounds (in_cells bounds cells.items)) },
    ghost sized: { vec_len cells ≡ positions bounds },
    ghost counted: { filled ≡ held_count (kept bounds (in_cells bounds cells.items)) },
}
