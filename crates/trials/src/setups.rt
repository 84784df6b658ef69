// Setups that are judged apart from a rehearsal.
use candidate::term::{Term, TimeUnit};
use rota::written::entries::WrittenRota;
use rota::{Rota, TurnByTurn};
use setup::Setup;
use std::test::Fail;

// Two years, and a day.
const CANDIDATES: [Term; 2] = [
    Term {
        unit: TimeUnit::Years,
        count: 2,
    },
    Term {
        unit: TimeUnit::Days,
        count: 1,
    },
];

// The second candidate, the first in another spelling, and one that equals none.
const INPUTS: [Term; 3] = [
    Term {
        unit: TimeUnit::Days,
        count: 1,
    },
    Term {
        unit: TimeUnit::Months,
        count: 24,
    },
    Term {
        unit: TimeUnit::Days,
        count: 9,
    },
];

// The setup number of n hosts, none of them faulty: the tests have the numbers by which answers are known outside.
fn number<R: Rota>(n: u8, inputs: &[Term], rota: &R) -> u8 {
    let setup = Setup {
        n,
        t: 0,
        faulty: 0,
        candidates: &CANDIDATES,
        inputs,
        rota,
    };
    setup.judge().err().map_or(0, |refusal| refusal.number())
}

#[test]
fn a_rehearsal_does_not_reach_every_number(rt: HostRuntime) {
    let two = TurnByTurn::new(2);
    assert_eq!(rt; number(2, &INPUTS[0..2], &two), 0);
    // too few inputs, too many, and none
    assert_eq!(rt; number(2, &INPUTS[0..1], &two), 6);
    assert_eq!(rt; number(2, &INPUTS[0..3], &two), 6);
    assert_eq!(rt; number(2, &[], &two), 6);
    // a rota of another number of hosts, and of none
    assert_eq!(rt; number(2, &INPUTS[0..2], &TurnByTurn::new(3)), 8);
    assert_eq!(rt; number(2, &INPUTS[0..2], &TurnByTurn::new(17)), 8);
    assert_eq!(rt; number(2, &INPUTS[0..2], &WrittenRota::new(2, &[1, 1])), 8);
    assert_eq!(rt;
        number(2, &INPUTS[0..2], &WrittenRota::new(2, &[1, 0, 1])),
        0
    );
    // an input that equals no candidate comes before the rota, and the number of inputs before both
    assert_eq!(rt; number(3, &INPUTS, &two), 7);
    assert_eq!(rt; number(3, &INPUTS[1..3], &two), 6);
}

#[test]
fn places_of_honest_inputs(rt: HostRuntime) -> Result<(), Fail> {
    let setup = Setup {
        n: 4,
        t: 1,
        faulty: 1,
        candidates: &CANDIDATES,
        inputs: &[INPUTS[2], INPUTS[0], INPUTS[1], INPUTS[1]],
        rota: &TurnByTurn::new(4),
    };
    let found = setup.judge().map_err(|_| Fail::new("refused"))?;
    let mut places = [None; 16];
    places[1..4].copy_from_slice(&[Some(1), Some(0), Some(0)]);
    assert_eq!(rt; found.places, places);
    Ok(())
}
