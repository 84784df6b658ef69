// The grid as a keeper.
ghost use Rattle.std.specs.Prelude.{◌≡◌, IfOk};
ghost use Rattle.keeper.specs.Keeping.{fresh};
ghost use Rattle.grid.specs.Cells.{cell_of};
ghost use Rattle.grid.specs.Grids.{keeping_of};
ghost use Rattle.std.proofs.Common.{rules};

use crate::Grid;
use fault::Refusal;
use keeper::MapKeeper;
use keeper::bounds::Bounds;
use keeper::position::Position;
use std::alloc::{AllocError, Global};

impl Grid {
    // An empty grid for n hosts, some of them open, of so many cells. Memory is asked for only as many as can be filled.
    pub fn new(heap: Global, n: u8, opened: u16, cells: usize) -> Result<Grid, AllocError>
        ensures { IfOk result (λ g. keeping_of g ≡ fresh n opened cells) }
    {
        let bounds = Bounds::new(n, opened, cells);
        let cells = vec![in heap; None; bounds.position_count()]?;
        Ok(Grid {
            bounds,
            cells,
            filled: 0,
        })
    }

    // The index of the cell of a position: the cells are one block, so that memory is asked for once.
    fn cell_of(&self, at: Position) -> usize
        ensures { result ≡ cell_of self.now.bounds.horizon at }
    {
        let row = usize::from(at.host) * 2 + at.sort as usize;
        row * usize::from(self.bounds.horizon) + usize::from(at.phase)
    }
}

impl MapKeeper for Grid {
    ghost keeping = { keeping_of };

    ghost sound = { Prim.search rules };

    fn bounds(&self) -> Bounds {
        self.bounds
    }

    fn number_at(&self, at: Position) -> Option<u32> {
        // `then` would give an option of an option
        if self.bounds.is_inside(at) {
            self.cells[self.cell_of(at)]
        } else {
            None
        }
    }

    fn held_count(&self) -> usize {
        self.filled
    }

    fn seal(&mut self, at: Position, number: u32) -> Result<(), Refusal> {
        self.judge(at)?;
        let cell = self.cell_of(at);
        self.cells[cell] = Some(number);
        self.filled += 1;
        Ok(())
    }
}
