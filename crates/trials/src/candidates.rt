// Kinds of candidate, and verdicts.
ghost use Rattle.std.specs.Prelude.{codes, refl, true};

use candidate::snapshot::Snapshot;
use candidate::term::{Term, TimeUnit, UnknownUnit};
use candidate::verdict::Verdict;
use candidate::{Candidate, Printable};
use std::alloc::Global;
use std::fmt;
use std::process::Abort;
use std::test::Fail;

// So many of a unit.
fn term(unit: TimeUnit, count: u16) -> Term {
    Term { unit, count }
}

// Equal both ways round, or neither.
fn agree<C: Candidate>(rt: &impl Abort, a: &C, b: &C, equal: bool) {
    assert_eq!(rt; a.equals(b), equal);
    assert_eq!(rt; b.equals(a), equal);
    assert!(rt; a.equals(a) && b.equals(b));
}

#[test]
fn terms_of_every_unit(rt: HostRuntime) {
    let years = term(TimeUnit::Years, 2);
    agree(&rt, &years, &term(TimeUnit::Months, 24), true);
    agree(&rt, &years, &term(TimeUnit::Days, 730), false);
    agree(&rt, &years, &term(TimeUnit::Years, 3), false);
    agree(&rt, &years, &term(TimeUnit::UntilClose, 2), false);
    let five = term(TimeUnit::Days, 5);
    agree(&rt, &five, &term(TimeUnit::Days, 5), true);
    let none = term(TimeUnit::Days, 0);
    agree(&rt, &none, &term(TimeUnit::Months, 0), false);
    let close = term(TimeUnit::UntilClose, 0);
    agree(&rt, &close, &term(TimeUnit::UntilClose, 9), true);
    let long = term(TimeUnit::Years, 5462);
    agree(&rt, &long, &term(TimeUnit::Months, 8), false);
    let longest = term(TimeUnit::Years, 16383);
    agree(&rt, &longest, &term(TimeUnit::Years, 16383), true);
}

#[test]
fn units_by_their_numbers(rt: HostRuntime) {
    assert_eq!(rt; TimeUnit::try_from(0), Ok(TimeUnit::Days));
    assert_eq!(rt; TimeUnit::try_from(1), Ok(TimeUnit::Months));
    assert_eq!(rt; TimeUnit::try_from(2), Ok(TimeUnit::Years));
    assert_eq!(rt; TimeUnit::try_from(3), Ok(TimeUnit::UntilClose));
    assert_eq!(rt; TimeUnit::try_from(4), Err(UnknownUnit(4)));
    assert_eq!(rt; TimeUnit::try_from(255), Err(UnknownUnit(255)));
}

// A verdict on the candidate in phase 2047 prints its text, and the phase.
fn prints<C: Printable + Drop>(
    rt: &impl Abort,
    heap: Global,
    candidate: C,
    text: &str,
) -> Result<(), Fail> {
    let verdict = Verdict {
        candidate,
        phase: 2047,
    };
    let printed = verdict.to_string(heap)?;
    assert_eq!(rt; printed.as_str(), text);
    Ok(())
}

#[test]
fn verdicts_are_printed(rt: HostRuntime) -> Result<(), Fail> {
    let heap = rt.alloc();
    let first = Snapshot {
        manual: 7,
        snapshot: 0,
    };
    prints(&rt, heap, first, "7 0 at 2047")?;
    let last = Snapshot {
        manual: u32::MAX,
        snapshot: 10,
    };
    prints(&rt, heap, last, "4294967295 10 at 2047")?;
    prints(&rt, heap, term(TimeUnit::Days, 0), "0d at 2047")?;
    prints(&rt, heap, term(TimeUnit::Months, 24), "24m at 2047")?;
    prints(&rt, heap, term(TimeUnit::Years, 16383), "16383y at 2047")?;
    prints(&rt, heap, term(TimeUnit::UntilClose, 9), "close at 2047")
}

// A kind of its own, not displayed by itself, whose one value is printed as wide as it is asked to be.
#[derive(Clone, Copy)]
struct Word;

impl Candidate for Word {
    ghost equal = { λ a b. true };

    ghost reflexive = { λ x. refl };

    ghost symmetric = { λ x y h. refl };

    ghost transitive = { λ x y z h g. refl };

    fn equals(&self, _other: &Self) -> bool {
        true
    }
}

impl Printable for Word {
    ghost text = { λ w. codes "ab" };

    fn print<W: fmt::Write>(&self, f: &mut fmt::Formatter<W>) -> fmt::Result {
        f.pad("ab")
    }
}

#[test]
fn a_kind_sees_how_a_verdict_is_to_be_printed(rt: HostRuntime) -> Result<(), Fail> {
    let verdict = Verdict {
        candidate: Word,
        phase: 1,
    };
    let text = format!(in rt.alloc(); "[{verdict}] [{verdict:>6}]")?;
    assert_eq!(rt; text.as_str(), "[ab at 1] [    ab at 1]");
    Ok(())
}
