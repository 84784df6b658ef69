// Whole rehearsals, from bytes to text.
use rehearsal::rehearse;
use std::alloc::{AllocError, Global};
use std::process::Abort;
use std::test::Fail;

// A rehearsal of terms: the candidates are 0, 1, 2.. days, and each host puts in 0 days.
fn of_days(heap: Global, n: u8, t: u8, m: u8, faulty: u16) -> Result<Vec<u8>, AllocError> {
    let mut bytes = vec![in heap; n % 32 * 8 + t % 8, m % 64 * 4 + 1]?;
    bytes.extend_from_slice(&faulty.to_be_bytes())?;
    bytes.extend((0..m).flat_map(|days| [0, days]))?;
    bytes.resize(bytes.len() + 2 * usize::from(n), 0)?;
    Ok(bytes)
}

// The bytes print just this text.
fn prints(rt: &impl Abort, heap: Global, bytes: &[u8], text: &str) -> Result<(), Fail> {
    let printed = rehearse(heap, bytes)?;
    assert_eq!(rt; printed.as_str(), text);
    Ok(())
}

// These bytes, with others behind them, print just this text.
fn prints_behind(
    rt: &impl Abort,
    heap: Global,
    front: &[u8],
    behind: &[u8],
    text: &str,
) -> Result<(), Fail> {
    let mut bytes = front.to_vec(heap)?;
    bytes.extend_from_slice(behind)?;
    prints(rt, heap, &bytes, text)
}

// What good setups of one, four and sixteen honest hosts print.
const ONE: &str = "0 open\n";

const FOUR: &str = "0 open\n1 open\n2 open\n3 open\n";

const SIXTEEN: &str =
    "0 open\n1 open\n2 open\n3 open\n4 open\n5 open\n6 open\n7 open\n8 open\n9 open\n10 open\n11 open\n12 open\n13 open\n14 open\n15 open\n";

// n, t, m, the fault set, and what is printed.
const SETUPS: [(u8, u8, u8, u16, &str); 41] = [
    // the ends of N
    (0, 0, 1, 0, "setup 1\n"),
    (1, 0, 1, 0, ONE),
    (16, 5, 1, 0, SIXTEEN),
    (17, 5, 1, 0, "setup 1\n"),
    (31, 0, 1, 0, "setup 1\n"),
    (31, 7, 63, 0xffff, "setup 1\n"),
    // the ends of M
    (4, 1, 0, 0, "setup 4\n"),
    (4, 1, 1, 0, FOUR),
    (4, 1, 32, 0, FOUR),
    (4, 1, 33, 0, "setup 4\n"),
    (4, 1, 63, 0, "setup 4\n"),
    // every t, from 1 to 5 with one host too few and with just enough
    (1, 1, 1, 0, "setup 2\n"),
    (3, 1, 1, 0, "setup 2\n"),
    (4, 1, 1, 0, FOUR),
    (6, 2, 1, 0, "setup 2\n"),
    (
        7,
        2,
        1,
        0,
        "0 open\n1 open\n2 open\n3 open\n4 open\n5 open\n6 open\n",
    ),
    (9, 3, 1, 0, "setup 2\n"),
    (
        10,
        3,
        1,
        0,
        "0 open\n1 open\n2 open\n3 open\n4 open\n5 open\n6 open\n7 open\n8 open\n9 open\n",
    ),
    (12, 4, 1, 0, "setup 2\n"),
    (
        13,
        4,
        1,
        0,
        "0 open\n1 open\n2 open\n3 open\n4 open\n5 open\n6 open\n7 open\n8 open\n9 open\n10 open\n11 open\n12 open\n",
    ),
    (15, 5, 1, 0, "setup 2\n"),
    (16, 0, 1, 0, SIXTEEN),
    (16, 6, 1, 0, "setup 2\n"),
    (16, 7, 1, 0, "setup 2\n"),
    // the fault set
    (1, 0, 1, 1, "setup 3\n"),
    (4, 1, 1, 1, "0 faulty\n1 open\n2 open\n3 open\n"),
    (4, 1, 1, 8, "0 open\n1 open\n2 open\n3 faulty\n"),
    (4, 1, 1, 16, "setup 3\n"),
    (4, 1, 1, 0x8000, "setup 3\n"),
    (4, 1, 1, 3, "setup 3\n"),
    (
        7,
        2,
        1,
        3,
        "0 faulty\n1 faulty\n2 open\n3 open\n4 open\n5 open\n6 open\n",
    ),
    (7, 2, 1, 7, "setup 3\n"),
    (
        16,
        5,
        1,
        0xf800,
        "0 open\n1 open\n2 open\n3 open\n4 open\n5 open\n6 open\n7 open\n8 open\n9 open\n10 open\n11 faulty\n12 faulty\n13 faulty\n14 faulty\n15 faulty\n",
    ),
    (16, 5, 1, 0xfc00, "setup 3\n"),
    // the first that applies
    (0, 7, 0, 0xffff, "setup 1\n"),
    (17, 7, 0, 0xffff, "setup 1\n"),
    (3, 1, 0, 0xffff, "setup 2\n"),
    (4, 1, 0, 0xffff, "setup 3\n"),
    (4, 1, 0, 1, "setup 4\n"),
    (4, 0, 33, 0, "setup 4\n"),
    (4, 0, 32, 0, FOUR),
];

#[test]
fn each_end_of_each_range(rt: HostRuntime) -> Result<(), Fail> {
    for (n, t, m, faulty, text) in SETUPS {
        let bytes = of_days(rt.alloc(), n, t, m, faulty)?;
        prints(&rt, rt.alloc(), &bytes, text)?;
    }
    Ok(())
}

// One host, one candidate, which is its input.
const ONE_SNAPSHOT: [u8; 20] = [
    0x08, 0x04, 0, 0, 0, 0, 0, 7, 0, 0, 0, 1, 0, 0, 0, 7, 0, 0, 0, 1,
];

// The candidate is two years, and the input 24 months.
const ONE_TERM: [u8; 8] = [0x08, 0x05, 0, 0, 0x80, 2, 0x40, 24];

// Wherever it is cut off, a setup prints `short`. (A slice has no iterator over its fronts.)
fn each_cut_is_short(rt: &impl Abort, heap: Global, whole: &[u8]) -> Result<(), Fail> {
    for cut in 0..whole.len() {
        prints(rt, heap, &whole[..cut], "short\n")?;
    }
    Ok(())
}

#[test]
fn every_cut_of_a_setup_is_short(rt: HostRuntime) -> Result<(), Fail> {
    each_cut_is_short(&rt, rt.alloc(), &ONE_SNAPSHOT)?;
    each_cut_is_short(&rt, rt.alloc(), &ONE_TERM)?;
    prints(&rt, rt.alloc(), &ONE_SNAPSHOT, ONE)?;
    prints(&rt, rt.alloc(), &ONE_TERM, ONE)
}

#[test]
fn the_sort_is_told_from_the_head_alone(rt: HostRuntime) -> Result<(), Fail> {
    for t in 0..8 {
        prints(&rt, rt.alloc(), &[t, 2, 0, 0], "sort\n")?;
        prints(&rt, rt.alloc(), &[248 + t, 0xff, 0xff, 0xff], "sort\n")?;
        prints(&rt, rt.alloc(), &[8 + t, 7, 0, 0, 1, 2, 3], "sort\n")?;
    }
    Ok(())
}

// What stands behind the head of one host and two terms, and what is printed.
const SPELLINGS: [([u8; 6], &str); 9] = [
    // 24 months and 2 years are one term
    ([0x40, 24, 0x80, 2, 0x40, 24], "setup 5\n"),
    // 24 days are another
    ([0, 24, 0x80, 2, 0x80, 2], ONE),
    // 2 years equal the candidate 24 months
    ([0, 24, 0x40, 24, 0x80, 2], ONE),
    // 730 days equal neither 730 months nor 2 years
    ([0x42, 0xda, 0x80, 2, 2, 0xda], "setup 7\n"),
    // until the close, with two counts
    ([0xc0, 0, 0xc0, 9, 0xc0, 0], "setup 5\n"),
    ([0xc0, 0, 0, 0, 0xff, 0xff], ONE),
    // 5462 years are 65544 months, and not 8
    ([0x95, 0x56, 0x40, 8, 0x40, 8], ONE),
    // the longest terms
    ([0xbf, 0xff, 0x7f, 0xff, 0xbf, 0xff], ONE),
    // 1365 years are 16380 months
    ([0x85, 0x55, 0x7f, 0xfc, 0x85, 0x55], "setup 5\n"),
];

#[test]
fn terms_are_equal_by_length(rt: HostRuntime) -> Result<(), Fail> {
    for (behind, text) in SPELLINGS {
        prints_behind(&rt, rt.alloc(), &[8, 9, 0, 0], &behind, text)?;
    }
    Ok(())
}

// Two hosts and two snapshots of manual and number, the hosts' inputs, and what is printed where nobody is faulty.
const SNAPSHOTS: [([u8; 8], &str); 6] = [
    ([7, 1, 7, 2, 7, 1, 7, 2], "0 open\n1 open\n"),
    ([7, 1, 8, 1, 8, 1, 8, 1], "0 open\n1 open\n"),
    ([7, 1, 7, 1, 7, 1, 7, 1], "setup 5\n"),
    ([7, 1, 1, 7, 7, 1, 7, 7], "setup 7\n"),
    ([7, 1, 7, 2, 7, 3, 7, 1], "setup 7\n"),
    ([7, 1, 7, 2, 8, 1, 7, 1], "setup 7\n"),
];

// A head, and then small numbers in 32 bits each.
fn of_snapshots(heap: Global, head: [u8; 4], numbers: &[u8]) -> Result<Vec<u8>, AllocError> {
    let mut bytes = head.to_vec(heap)?;
    bytes.extend(numbers.iter().flat_map(|number| [0, 0, 0, *number]))?;
    Ok(bytes)
}

#[test]
fn snapshots_are_equal_in_both_numbers(rt: HostRuntime) -> Result<(), Fail> {
    for (numbers, text) in SNAPSHOTS {
        let bytes = of_snapshots(rt.alloc(), [16, 8, 0, 0], &numbers)?;
        prints(&rt, rt.alloc(), &bytes, text)?;
    }
    Ok(())
}

#[test]
fn a_faulty_input_is_not_looked_at(rt: HostRuntime) -> Result<(), Fail> {
    let numbers = [7, 1, 7, 1, 7, 1, 7, 1, 9, 9];
    let honest = of_snapshots(rt.alloc(), [0x21, 4, 0, 0], &numbers)?;
    prints(&rt, rt.alloc(), &honest, "setup 7\n")?;
    let faulty = of_snapshots(rt.alloc(), [0x21, 4, 0, 8], &numbers)?;
    prints(
        &rt,
        rt.alloc(),
        &faulty,
        "0 open\n1 open\n2 open\n3 faulty\n",
    )
}

// What stands behind a good setup of one host, and what is printed.
const BAGS: [(&[u8], &str); 8] = [
    (&[], ONE),
    (&[0], "short\n0 open\n"),
    (&[0, 1], "short\n0 open\n"),
    (&[0, 0], "bags not played: 1\n0 open\n"),
    (&[0, 1, 9], "bags not played: 1\n0 open\n"),
    (&[0, 1, 9, 0], "bags not played: 1\nshort\n0 open\n"),
    (&[0, 1, 9, 1, 0, 5], "bags not played: 1\nshort\n0 open\n"),
    (&[0, 2, 9, 9, 0, 0, 0, 1, 9], "bags not played: 3\n0 open\n"),
];

#[test]
fn bags_are_counted_and_not_played(rt: HostRuntime) -> Result<(), Fail> {
    for (behind, text) in BAGS {
        prints_behind(&rt, rt.alloc(), &ONE_TERM, behind, text)?;
    }
    Ok(())
}
