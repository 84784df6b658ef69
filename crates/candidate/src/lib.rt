// Candidates (the values that can be agreed on). A kind of candidate brings an equality that keeps three laws.
#![tactic(auto)]

ghost use Rattle.std.specs.Fmt.{WritesOnOk};
ghost use Rattle.std.specs.Prelude.{◌≡◌, ℕ, Bool, true, List, Some};

use std::fmt;

pub mod snapshot;
pub mod term;
pub mod verdict;

// A kind of candidate. Its equality may join candidates of different spelling, so the trait does not ask for the `==` of a derive.
pub trait Candidate {
    ghost equal: { Self → Self → Bool };

    // Whether the two are equal.
    fn equals(&self, other: &Self) -> bool
        ensures { result ≡ equal self.now other.now };

    ghost reflexive: { (x : Self) → equal x x ≡ true };

    ghost symmetric: { (x y : Self) → equal x y ≡ true → equal y x ≡ true };

    ghost transitive: { (x y z : Self) → equal x y ≡ true → equal y z ≡ true → equal x z ≡ true };
}

// A kind of candidate that can be printed.
pub trait Printable: Candidate {
    ghost text: { Self → List ℕ };

    // Writes the printed form, byte for byte.
    fn print<W: fmt::Write>(&self, f: &mut fmt::Formatter<W>) -> fmt::Result
        ensures { WritesOnOk W.write_str_gives f.old result (text self.now) f.new };
}

// A kind of candidate whose printed form is what is displayed of it. It is `Printable` by the impl below; a kind may also be displayed otherwise, and bring its own `print`.
pub trait Displayed: Candidate + fmt::Display {
    ghost text: { Self → List ℕ };

    ghost shown: { (x : Self) → Self.output x ≡ Some (text x) };
}

impl<C: Displayed> Printable for C {
    ghost text = { C.Displayed.text };

    fn print<W: fmt::Write>(&self, f: &mut fmt::Formatter<W>) -> fmt::Result {
        self.fmt(f)
    }
}
