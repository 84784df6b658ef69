// Verdicts (decisions): what a host decided, and when.
ghost use Rattle.std.specs.Prelude.{Some};
ghost use Rattle.candidate.specs.Texts.{verdict_text};

use crate::Printable;
use std::fmt;

// A candidate of any kind, and the phase in which it was decided.
#[derive(Clone, Copy, Drop)]
pub struct Verdict<C> {
    pub candidate: C,
    pub phase: u16,
}

impl<C: Printable> fmt::Display for Verdict<C> {
    ghost output = { λ v. Some (verdict_text C.Printable.text v) };

    fn fmt<W: fmt::Write>(&self, f: &mut fmt::Formatter<W>) -> fmt::Result {
        // no placeholder: the candidate may look at this formatter's options
        self.candidate.print(f)?;
        write!(f, " at {}", self.phase)
    }
}
