// Snapshots of manuals, as candidates.
ghost use Rattle.std.specs.Prelude.{Some, refl};
ghost use Rattle.candidate.specs.Equality.{equal_snapshots};
ghost use Rattle.candidate.specs.Texts.{snapshot_text};
ghost use Rattle.std.proofs.Common.{rules};

use crate::{Candidate, Displayed};
use std::fmt;

// A numbered snapshot of a numbered manual.
#[derive(Clone, Copy, Debug, PartialEq, Eq)]
pub struct Snapshot {
    pub manual: u32,
    pub snapshot: u32,
}

impl Candidate for Snapshot {
    ghost equal = { equal_snapshots };

    ghost reflexive = { Prim.search rules };

    ghost symmetric = { Prim.search rules };

    ghost transitive = { Prim.search rules };

    fn equals(&self, other: &Self) -> bool {
        self == other
    }
}

impl fmt::Display for Snapshot {
    ghost output = { λ s. Some (snapshot_text s) };

    fn fmt<W: fmt::Write>(&self, f: &mut fmt::Formatter<W>) -> fmt::Result {
        write!(f, "{} {}", self.manual, self.snapshot)
    }
}

impl Displayed for Snapshot {
    ghost text = { snapshot_text };

    ghost shown = { λ s. refl };
}
