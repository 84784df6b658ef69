// Where the entries of a bag begin.
ghost use Rattle.std.specs.Prelude.{◌≡◌};
ghost use Rattle.bag.specs.Offsets.{filed, no_offsets, offset_of};

use sets::HOSTS;

// As many rows, and cells in each, as a set of hosts can name.
const SIDE: usize = HOSTS as usize;

// How many bytes stand between the bag's head and each pair's entry: a row for each recipient that a set of hosts can name, with a cell for each sender. Recipient and sender are passed apart, as the indices of a table are.
#[derive(Clone, Copy)]
pub struct Offsets {
    rows: [[Option<usize>; SIDE]; SIDE],
}

impl Offsets {
    // No entry yet.
    pub fn new() -> Offsets
        ensures { result.rows ≡ no_offsets }
    {
        Offsets {
            rows: [[None; SIDE]; SIDE],
        }
    }

    // Where the pair's entry begins, if it has one.
    pub fn get(&self, recipient: u8, sender: u8) -> Option<usize>
        ensures { result ≡ offset_of self.now.rows recipient sender }
    {
        let row = self.rows.get(usize::from(recipient))?;
        *row.get(usize::from(sender))?
    }

    // The pair's entry begins at the offset. Nothing is kept for a host that no set of hosts can name. (Of two `get_mut` one in the other the proof did not close.)
    pub fn file(&mut self, recipient: u8, sender: u8, offset: usize)
        ensures { self.new.rows ≡ filed self.old.rows recipient sender offset }
    {
        let (i, j) = (usize::from(recipient), usize::from(sender));
        if i < SIDE && j < SIDE {
            self.rows[i][j] = Some(offset);
        }
    }
}
