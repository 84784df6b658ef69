// Who owns which phase.
use rota::written::entries::WrittenRota;
use rota::{Rota, TurnByTurn};
use std::process::Abort;

// Host count and window, then some phases with their owners.
fn answers<R: Rota>(rt: &impl Abort, rota: &R, hosts: u8, window: u8, owners: &[(u16, u8)]) {
    assert_eq!(rt; rota.host_count(), hosts);
    assert_eq!(rt; rota.window(), window);
    for &(phase, owner) in owners {
        assert_eq!(rt; rota.owner_of(phase), owner);
    }
}

#[test]
fn turn_by_turn(rt: HostRuntime) {
    answers(
        &rt,
        &TurnByTurn::new(4),
        4,
        4,
        &[(0, 0), (5, 1), (2047, 3), (2048, 0), (65535, 0)],
    );
    answers(&rt, &TurnByTurn::new(1), 1, 1, &[(0, 0), (2047, 0)]);
    answers(
        &rt,
        &TurnByTurn::new(16),
        16,
        16,
        &[(15, 15), (16, 0), (2047, 15)],
    );
    answers(&rt, &TurnByTurn::new(0), 0, 0, &[(0, 0), (5, 0)]);
    answers(&rt, &TurnByTurn::new(17), 0, 0, &[(0, 0), (5, 0)]);
    answers(&rt, &TurnByTurn::new(255), 0, 0, &[(0, 0), (5, 0)]);
}

#[test]
fn by_entries(rt: HostRuntime) {
    let doubled = [0, 0, 1, 2, 3];
    answers(
        &rt,
        &WrittenRota::new(4, &doubled),
        4,
        5,
        &[(4, 3), (6, 0), (7, 1), (2047, 1), (2048, 0)],
    );
    answers(
        &rt,
        &WrittenRota::new(1, &[0; 64]),
        1,
        64,
        &[(0, 0), (63, 0)],
    );
    let void = [(0, 0), (1, 0), (4, 0)];
    answers(&rt, &WrittenRota::new(1, &[0; 65]), 0, 0, &void);
    answers(&rt, &WrittenRota::new(1, &[]), 0, 0, &void);
    answers(&rt, &WrittenRota::new(0, &[]), 0, 0, &void);
    answers(&rt, &WrittenRota::new(17, &doubled), 0, 0, &void);
    answers(&rt, &WrittenRota::new(3, &doubled), 0, 0, &void);
    answers(&rt, &WrittenRota::new(5, &doubled), 0, 0, &void);
    answers(&rt, &WrittenRota::new(2, &[1, 1]), 0, 0, &void);
}
