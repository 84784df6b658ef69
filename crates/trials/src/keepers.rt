// Keepers of seals: the same sealings on a book and on a grid.
use book::Book;
use fault::Refusal;
use grid::Grid;
use keeper::position::Position;
use keeper::position::Sort::{self, List, Nomination};
use keeper::{Keeper, attest};
use std::process::Abort;
use std::test::Fail;

// Lists at even numbers, nominations at odd ones.
fn nth_sort(i: u16) -> Sort {
    if i % 2 == 0 { List } else { Nomination }
}

// The positions one after another, host by host, with so many phases to each.
fn nth_position(i: u16, phases: u16) -> Position {
    let phases = phases.max(1);
    Position {
        host: (i / 2 / phases & 0xff) as u8,
        sort: nth_sort(i),
        phase: i / 2 % phases,
    }
}

// The number of a refusal, or 0: the tables have the numbers by which answers are known outside.
fn number(answer: Result<(), Refusal>) -> u8 {
    answer.err().map_or(0, |refusal| refusal.number())
}

// What a keeper answers of itself: host count, open hosts, horizon, and how many numbers are held.
#[derive(Clone, Copy, PartialEq, Eq, Debug)]
struct State {
    hosts: u8,
    opened: u16,
    horizon: u16,
    held: usize,
}

fn state_of<K: Keeper>(keeper: &K) -> State {
    State {
        hosts: keeper.host_count(),
        opened: keeper.open_hosts(),
        horizon: keeper.horizon(),
        held: keeper.held_count(),
    }
}

// Two keepers hold and admit the same at a position, and call the same numbers genuine. (`MapKeeper` is named by its path here and below: with both traits imported, `book.seal` would be either's.)
fn agree_at<A: keeper::MapKeeper, B: keeper::MapKeeper>(
    rt: &impl Abort,
    a: &A,
    b: &B,
    at: Position,
    numbers: &[u32],
) {
    assert_eq!(rt; a.number_at(at), b.number_at(at));
    assert_eq!(rt; number(a.judge(at)), number(b.judge(at)));
    for x in numbers {
        assert_eq!(rt;
            Keeper::is_genuine(a, at, *x),
            Keeper::is_genuine(b, at, *x)
        );
    }
}

// Two keepers have the same hosts, open hosts and phases, hold as many numbers, and agree at every position of the hosts 0 to 5 and the phases 0 to 9.
fn agree<A: keeper::MapKeeper, B: keeper::MapKeeper>(
    rt: &impl Abort,
    a: &A,
    b: &B,
    numbers: &[u32],
) {
    assert_eq!(rt; state_of(a), state_of(b));
    for at in (0..120).map(|i| nth_position(i, 10)) {
        agree_at(rt, a, b, at, numbers);
    }
}

// What is given, and what a keeper then has: n, the open hosts, the rows or cells; host count, open hosts, horizon.
const MAKINGS: [(u8, u16, usize, u8, u16, u16); 19] = [
    // two rows for each host and phase, rounded down
    (4, 8, 64, 4, 8, 8),
    (4, 8, 63, 4, 8, 7),
    (4, 8, 8, 4, 8, 1),
    (4, 8, 7, 4, 8, 0),
    (3, 7, 0, 3, 7, 0),
    (3, 0, 35, 3, 0, 5),
    // at most 2,048 phases
    (1, 0, 4095, 1, 0, 2047),
    (1, 1, 4096, 1, 1, 2048),
    (1, 0, 4098, 1, 0, 2048),
    (16, 0xffff, 65535, 16, 0xffff, 2047),
    (16, 0x8000, 65536, 16, 0x8000, 2048),
    (4, 0, 0xffff_ffff_ffff_ffff, 4, 0, 2048),
    // no number of hosts
    (0, 0, 64, 0, 0, 0),
    (17, 0, 64, 0, 0, 0),
    (255, 1, 64, 0, 0, 0),
    // an open host that there is not
    (4, 0x10, 64, 0, 0, 0),
    (4, 0x8001, 64, 0, 0, 0),
    (1, 2, 64, 0, 0, 0),
    (15, 0x8000, 64, 0, 0, 0),
];

// A keeper begins so, and seals no number at the horizon, and none at all without hosts.
fn begins<K: Keeper>(rt: &impl Abort, keeper: &mut K, new: State) {
    assert_eq!(rt; state_of(keeper), new);
    let past = Position {
        host: 0,
        sort: List,
        phase: new.horizon,
    };
    let refused = if new.hosts == 0 { 11 } else { 12 };
    assert_eq!(rt; number(keeper.seal(past, 1)), refused);
}

// Here and below a test calls once for the book and once for the grid: a closure cannot be generic in the keeper.
#[test]
fn made_for_so_many_phases(rt: HostRuntime) -> Result<(), Fail> {
    for (n, given, room, hosts, opened, horizon) in MAKINGS {
        let new = State {
            hosts,
            opened,
            horizon,
            held: 0,
        };
        begins(&rt, &mut Book::new(rt.alloc(), n, given, room)?, new);
        begins(&rt, &mut Grid::new(rt.alloc(), n, given, room)?, new);
    }
    Ok(())
}

// Sealings on a keeper of 4 hosts and 8 phases, host 3 being open: host, sort, phase, number, and what is answered.
const SEALINGS: [(u8, Sort, u16, u32, u8); 19] = [
    (0, List, 0, 5, 0),
    // the same position again, with the same number and with another
    (0, List, 0, 5, 14),
    (0, List, 0, 6, 14),
    // another sort, host and phase
    (0, Nomination, 0, 6, 0),
    (1, List, 0, 5, 0),
    (0, List, 1, 5, 0),
    // the last phase, and one more
    (2, List, 7, 0xffff_ffff, 0),
    (2, List, 8, 1, 12),
    (2, Nomination, 0xffff, 1, 12),
    // the last host, which is open, and one more
    (3, List, 7, 1, 13),
    (3, Nomination, 0, 1, 13),
    (4, List, 7, 1, 11),
    (255, Nomination, 0, 1, 11),
    // the host is tested first, then the phase, then whether the host is open
    (4, List, 8, 1, 11),
    (16, Nomination, 0xffff, 1, 11),
    (3, List, 8, 1, 12),
    // nothing that was refused stands in the way
    (2, Nomination, 7, 0, 0),
    (2, Nomination, 7, 1, 14),
    (1, List, 7, 0, 0),
];

// Numbers to ask about.
const NUMBERS: [u32; 5] = [0, 1, 5, 6, 0xffff_ffff];

#[test]
fn the_same_sealings_on_both(rt: HostRuntime) -> Result<(), Fail> {
    let mut book = Book::new(rt.alloc(), 4, 8, 64)?;
    let mut grid = Grid::new(rt.alloc(), 4, 8, 64)?;
    let mut held = 0usize;
    for (host, sort, phase, x, answer) in SEALINGS {
        let at = Position { host, sort, phase };
        assert_eq!(rt; number(book.seal(at, x)), answer);
        assert_eq!(rt; number(grid.seal(at, x)), answer);
        if answer == 0 {
            held = held.saturating_add(1);
        }
        let state = State {
            hosts: 4,
            opened: 8,
            horizon: 8,
            held,
        };
        assert_eq!(rt; state_of(&book), state);
        agree(&rt, &book, &grid, &NUMBERS);
    }
    assert_eq!(rt; held, 7);
    Ok(())
}

// After those sealings: host, sort, phase, number, and whether it is genuine.
const ASKED: [(u8, Sort, u16, u32, bool); 15] = [
    (0, List, 0, 5, true),
    (0, List, 0, 6, false),
    (0, Nomination, 0, 6, true),
    (0, Nomination, 0, 5, false),
    (2, List, 7, 0xffff_ffff, true),
    (2, Nomination, 7, 0, true),
    // nothing was sealed there
    (1, Nomination, 0, 5, false),
    (2, Nomination, 0, 0, false),
    // any number of the open host, in each of the phases
    (3, List, 0, 5, true),
    (3, Nomination, 7, 0xffff_ffff, true),
    // no number outside
    (3, List, 8, 5, false),
    (2, List, 8, 1, false),
    (4, List, 0, 5, false),
    (16, List, 0, 5, false),
    (255, Nomination, 7, 1, false),
];

// Plays the sealings. A position admits what is sealed there, and then holds it.
fn plays<K: keeper::MapKeeper>(rt: &impl Abort, keeper: &mut K) {
    for (host, sort, phase, x, answer) in SEALINGS {
        let at = Position { host, sort, phase };
        assert_eq!(rt; number(keeper.judge(at)), answer);
        assert_eq!(rt; number(Keeper::seal(keeper, at, x)), answer);
        assert!(rt; answer != 0 || keeper.number_at(at) == Some(x));
    }
}

// Plays the sealings, and asks.
fn asks<K: keeper::MapKeeper>(rt: &impl Abort, keeper: &mut K) {
    plays(rt, keeper);
    for (host, sort, phase, x, genuine) in ASKED {
        let at = Position { host, sort, phase };
        assert_eq!(rt; Keeper::is_genuine(keeper, at, x), genuine);
    }
}

#[test]
fn genuine_is_what_was_sealed(rt: HostRuntime) -> Result<(), Fail> {
    asks(&rt, &mut Book::new(rt.alloc(), 4, 8, 64)?);
    asks(&rt, &mut Grid::new(rt.alloc(), 4, 8, 64)?);
    Ok(())
}

// A new keeper of 3 hosts and 5 phases.
const UNFILLED: State = State {
    hosts: 3,
    opened: 0,
    horizon: 5,
    held: 0,
};

// Seals at every position of a keeper of 3 hosts and 5 phases, and of one host and one phase more. What is answered inside is given.
fn seals_all<K: Keeper>(rt: &impl Abort, keeper: &mut K, inside: u8) {
    for at in (0..48).map(|i| nth_position(i, 6)) {
        let expected = match at {
            Position { host: 3, .. } => 11,
            Position { phase: 5, .. } => 12,
            _ => inside,
        };
        assert_eq!(rt; number(keeper.seal(at, 7)), expected);
    }
    assert_eq!(rt;
        state_of(keeper),
        State {
            held: 30,
            ..UNFILLED
        }
    );
}

// Every position is filled once, and then each sealing is refused.
fn fills<K: Keeper>(rt: &impl Abort, keeper: &mut K) {
    assert_eq!(rt; state_of(keeper), UNFILLED);
    seals_all(rt, keeper, 0);
    seals_all(rt, keeper, 14);
}

#[test]
fn spare_rows_and_cells_stay_unused(rt: HostRuntime) -> Result<(), Fail> {
    // 3 hosts and 5 phases take 30 of the 35
    fills(&rt, &mut Book::new(rt.alloc(), 3, 0, 35)?);
    fills(&rt, &mut Grid::new(rt.alloc(), 3, 0, 35)?);
    Ok(())
}

// Attests a number twice, another number, a number of the open host, and numbers outside.
fn attests<K: Keeper>(rt: &impl Abort, keeper: &mut K) {
    let at = Position {
        host: 0,
        sort: Nomination,
        phase: 7,
    };
    let of = |host, phase| Position {
        host,
        sort: List,
        phase,
    };
    assert_eq!(rt; number(attest(keeper, at, 5)), 0);
    assert_eq!(rt; number(attest(keeper, at, 5)), 0);
    assert_eq!(rt; keeper.held_count(), 1);
    assert_eq!(rt; number(attest(keeper, at, 6)), 14);
    assert_eq!(rt; number(attest(keeper, of(3, 7), 6)), 0);
    assert_eq!(rt; number(attest(keeper, of(3, 8), 6)), 12);
    assert_eq!(rt; number(attest(keeper, of(4, 7), 6)), 11);
    assert!(rt; keeper.is_genuine(at, 5));
    assert!(rt; !keeper.is_genuine(at, 6));
    assert_eq!(rt; keeper.held_count(), 1);
}

#[test]
fn attested_numbers_are_genuine(rt: HostRuntime) -> Result<(), Fail> {
    attests(&rt, &mut Book::new(rt.alloc(), 4, 8, 64)?);
    attests(&rt, &mut Grid::new(rt.alloc(), 4, 8, 64)?);
    Ok(())
}

#[test]
fn a_line_of_mixed_sealings(rt: HostRuntime) -> Result<(), Fail> {
    let mut book = Book::new(rt.alloc(), 5, 0x12, 97)?;
    let mut grid = Grid::new(rt.alloc(), 5, 0x12, 97)?;
    let new = State {
        hosts: 5,
        opened: 0x12,
        horizon: 9,
        held: 0,
    };
    assert_eq!(rt; state_of(&book), new);
    // positions in and out of range, in no order, by a linear congruential sequence: every answer comes up
    let mut seed = 1u16;
    for _ in 0..1000 {
        seed = seed.wrapping_mul(25173).wrapping_add(13849);
        let at = Position {
            host: (seed >> 13) as u8,
            sort: nth_sort(seed >> 12),
            phase: (seed >> 6) & 15,
        };
        let x = u32::from(seed & 3);
        assert_eq!(rt; number(grid.seal(at, x)), number(book.seal(at, x)));
    }
    agree(&rt, &book, &grid, &[0, 1, 2, 3]);
    // all 54 positions of the three hosts that are not open
    assert_eq!(rt; book.held_count(), 54);
    Ok(())
}
