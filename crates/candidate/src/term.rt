// Terms, for how long something is kept, as candidates.
ghost use Rattle.std.specs.Prelude.{◌≡◌, Some, refl};
ghost use Rattle.candidate.specs.Equality.{equal_terms, length_of};
ghost use Rattle.candidate.specs.Texts.{term_text};
ghost use Rattle.candidate.specs.Units.{unit_in};
ghost use Rattle.std.proofs.Common.{rules};

use crate::{Candidate, Displayed};
use std::fmt;

// What a term counts; until the project closes, nothing is counted.
#[derive(Clone, Copy, Debug, PartialEq, Eq)]
pub enum TimeUnit {
    Days,
    Months,
    Years,
    UntilClose,
}

// A number that no unit has.
#[derive(Clone, Copy, Debug, PartialEq, Eq)]
pub struct UnknownUnit(pub u8);

impl TryFrom<u8> for TimeUnit {
    type Error = UnknownUnit;

    ghost try_from_gives = { λ code r. r ≡ unit_in code };

    fn try_from(code: u8) -> Result<Self, UnknownUnit> {
        match code {
            0 => Ok(TimeUnit::Days),
            1 => Ok(TimeUnit::Months),
            2 => Ok(TimeUnit::Years),
            3 => Ok(TimeUnit::UntilClose),
            _ => Err(UnknownUnit(code)),
        }
    }
}

// So many of a unit. `==` is not derived: terms of another spelling can be equal.
#[derive(Clone, Copy)]
pub struct Term {
    pub unit: TimeUnit,
    pub count: u16,
}

// What a term comes to, whatever its spelling.
#[derive(Clone, Copy, Debug, PartialEq, Eq)]
pub enum Length {
    Days(u32),
    Months(u32),
    UntilClose,
}

impl Term {
    // The length of the term. In months it can pass 16 bits.
    pub fn length(&self) -> Length
        ensures { result ≡ length_of self.now }
    {
        let count = u32::from(self.count);
        match self.unit {
            TimeUnit::Days => Length::Days(count),
            TimeUnit::Months => Length::Months(count),
            TimeUnit::Years => Length::Months(12 * count),
            TimeUnit::UntilClose => Length::UntilClose,
        }
    }
}

impl Candidate for Term {
    ghost equal = { equal_terms };

    ghost reflexive = { Prim.search rules };

    ghost symmetric = { Prim.search rules };

    ghost transitive = { Prim.search rules };

    fn equals(&self, other: &Self) -> bool {
        self.length() == other.length()
    }
}

impl fmt::Display for Term {
    ghost output = { λ t. Some (term_text t) };

    fn fmt<W: fmt::Write>(&self, f: &mut fmt::Formatter<W>) -> fmt::Result {
        match self.unit {
            TimeUnit::Days => write!(f, "{}d", self.count),
            TimeUnit::Months => write!(f, "{}m", self.count),
            TimeUnit::Years => write!(f, "{}y", self.count),
            TimeUnit::UntilClose => write!(f, "close"),
        }
    }
}

impl Displayed for Term {
    ghost text = { term_text };

    ghost shown = { λ t. refl };
}
