// What a rehearsal prints, line by line.
ghost use Rattle.std.specs.Prelude.{Some};
ghost use Rattle.rehearsal.specs.Texts.{line_text};

use fault::Refusal;
use std::fmt;

// A line, by what it says.
#[derive(Clone, Copy)]
pub enum Line {
    // the sort is no kind of candidate
    Sort,
    // a piece is missing
    Short,
    // no council can be made
    Setup(Refusal),
    // so many bags were given
    Unplayed(usize),
    // an honest host that has not decided
    HostOpen(u8),
    // a host of the fault set
    HostFaulty(u8),
}

impl fmt::Display for Line {
    ghost output = { λ l. Some (line_text l) };

    fn fmt<W: fmt::Write>(&self, f: &mut fmt::Formatter<W>) -> fmt::Result {
        match *self {
            Line::Sort => write!(f, "sort"),
            Line::Short => write!(f, "short"),
            Line::Setup(refusal) => write!(f, "setup {}", refusal.number()),
            Line::Unplayed(bags) => write!(f, "bags not played: {bags}"),
            Line::HostOpen(host) => write!(f, "{host} open"),
            Line::HostFaulty(host) => write!(f, "{host} faulty"),
        }
    }
}
