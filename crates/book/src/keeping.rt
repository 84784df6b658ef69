// The book as a keeper.
ghost use Rattle.std.specs.Prelude.{◌≡◌, IfOk};
ghost use Rattle.keeper.specs.Keeping.{fresh};
ghost use Rattle.book.specs.Books.{keeping_of};
ghost use Rattle.std.proofs.Common.{rules};

use crate::Book;
use crate::row::Row;
use fault::Refusal;
use keeper::MapKeeper;
use keeper::bounds::Bounds;
use keeper::position::Position;
use std::alloc::{AllocError, Global};

impl Book {
    // An empty book for n hosts, some of them open, of so many rows. Memory is asked for only as many as can be filled.
    pub fn new(heap: Global, n: u8, opened: u16, rows: usize) -> Result<Book, AllocError>
        ensures { IfOk result (λ b. keeping_of b ≡ fresh n opened rows) }
    {
        let bounds = Bounds::new(n, opened, rows);
        let rows = Vec::with_capacity(heap, bounds.position_count())?;
        Ok(Book { bounds, rows })
    }
}

impl MapKeeper for Book {
    ghost keeping = { keeping_of };

    ghost sound = { Prim.search rules };

    fn bounds(&self) -> Bounds {
        self.bounds
    }

    fn number_at(&self, at: Position) -> Option<u32> {
        self.rows
            .iter()
            .find(|row| row.position.is_same(at))
            .map(|row| row.number)
    }

    fn held_count(&self) -> usize {
        self.rows.len()
    }

    fn seal(&mut self, at: Position, number: u32) -> Result<(), Refusal> {
        self.judge(at)?;
        self.rows.push_reserved(Row {
            position: at,
            number,
        });
        Ok(())
    }
}
