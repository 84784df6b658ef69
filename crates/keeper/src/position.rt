// Where a sealed number stands: whose it is, of which sort, and in which phase.
ghost use Rattle.std.specs.Prelude.{◌≡◌};
ghost use Rattle.keeper.specs.Keeping.{same_position};

// The two sorts of number that a host seals: its list (the set of candidates that it would accept), and its nomination (the place that it proposes as owner).
#[derive(Clone, Copy, PartialEq, Eq, Debug)]
pub enum Sort {
    List = 0,
    Nomination = 1,
}

// One position of a keeper's map.
#[derive(Clone, Copy, PartialEq, Eq, Debug)]
pub struct Position {
    pub host: u8,
    pub sort: Sort,
    pub phase: u16,
}

impl Position {
    // Whether both are the same position: `==` answers so.
    pub fn is_same(&self, other: Position) -> bool
        ensures { result ≡ same_position self.now other }
    {
        *self == other
    }
}
