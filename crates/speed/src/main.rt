// How long sealing and asking take on a book and on a grid of sixteen hosts. With a word as argument it prints times and measures large keepers too.
#![tactic(auto)]

use book::Book;
use grid::Grid;
use keeper::Keeper;
use keeper::position::{Position, Sort};
use std::alloc::{AllocError, Global};
use std::time::{Duration, Instant};
use std::{env, fmt, io};

// The positions of sixteen hosts in the order in which a council fills them: phase by phase, host by host.
fn nth_position(i: u32) -> Position {
    let sort = if i % 2 == 0 {
        Sort::List
    } else {
        Sort::Nomination
    };
    Position {
        host: (i / 2 % 16) as u8,
        sort,
        phase: (i / 32 % 2048) as u16,
    }
}

// How many calls were answered by true, and the time that all of them took.
#[derive(Clone, Copy)]
struct Calls {
    count: usize,
    time: Duration,
}

// Picoseconds for each.
impl fmt::Display for Calls {
    fn fmt<W: fmt::Write>(&self, f: &mut fmt::Formatter<W>) -> fmt::Result {
        let each = self.time.as_nanos().saturating_mul(1000) / self.count.max(1) as u128;
        write!(f, "{each} ps")
    }
}

// What was measured on a keeper: the sealings that were accepted, and the questions that were affirmed.
#[derive(Clone, Copy)]
struct Measured {
    name: &'static str,
    seal: Calls,
    ask: Calls,
}

impl fmt::Display for Measured {
    fn fmt<W: fmt::Write>(&self, f: &mut fmt::Formatter<W>) -> fmt::Result {
        let sealed = self.seal.count;
        let genuine = self.ask.count;
        write!(f, "{}: {sealed} sealed, {genuine} genuine", self.name)
    }
}

// The same, with the times.
#[derive(Drop)]
struct Timed(Measured);

impl fmt::Display for Timed {
    fn fmt<W: fmt::Write>(&self, f: &mut fmt::Formatter<W>) -> fmt::Result {
        let measured = self.0;
        let Measured { seal, ask, .. } = measured;
        write!(f, "{measured}\n  {seal} to seal, {ask} to ask")
    }
}

// Makes the call for each number below `positions`: how many are answered by true, and the time that all take.
fn call_for_each<F: FnMut(&u32) -> bool + Drop>(
    rt: &HostRuntime,
    positions: u32,
    call: F,
) -> io::Result<Calls>
    requires { (f : _) (i : _) → F.pre f i }
{
    let start = Instant::now(rt)?;
    let count = (0..positions).filter(call).count();
    Ok(Calls {
        count,
        time: start.elapsed(rt)?,
    })
}

// Seals i at the i-th position of a keeper, and asks about it.
fn measure<K: Keeper>(
    rt: &HostRuntime,
    name: &'static str,
    keeper: &mut K,
    positions: u32,
) -> io::Result<Measured> {
    let seal = call_for_each(rt, positions, |&i| keeper.seal(nth_position(i), i).is_ok())?;
    let ask = call_for_each(rt, positions, |&i| keeper.is_genuine(nth_position(i), i))?;
    Ok(Measured { name, seal, ask })
}

// The same of a new keeper, which `new` makes.
fn measure_new<K, F>(
    rt: &HostRuntime,
    name: &'static str,
    new: F,
    positions: u32,
) -> io::Result<Measured>
where
    K: Keeper + Drop,
    F: FnOnce(Global, u8, u16, usize) -> Result<K, AllocError> + Drop,
    requires { (heap : _) (n : _) (opened : _) (room : _) → F.pre new heap n opened room }
{
    let mut keeper = new(rt.alloc(), 16, 0, positions as usize)?;
    measure(rt, name, &mut keeper, positions)
}

fn main(rt: HostRuntime) -> io::Result<()> {
    if env::args(&rt)?.count() <= 1 {
        println!(rt; "{}", measure_new(&rt, "book", Book::new, 2048)?)?;
        return println!(rt; "{}", measure_new(&rt, "grid", Grid::new, 2048)?);
    }
    for positions in [2048, 8192, 65536] {
        println!(rt;
            "{}",
            Timed(measure_new(&rt, "book", Book::new, positions)?)
        )?;
        println!(rt;
            "{}",
            Timed(measure_new(&rt, "grid", Grid::new, positions)?)
        )?;
    }
    Ok(())
}
