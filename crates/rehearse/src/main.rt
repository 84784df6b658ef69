// Reads a rehearsal from the standard input, and prints what it comes to.
#![tactic(auto)]

use rehearsal::rehearse;
use std::io;
use std::io::Read;

fn main(rt: HostRuntime) -> io::Result<()> {
    let mut bytes = Vec::new(rt.alloc());
    rt.stdin().read_to_end(&mut bytes)?;
    let text = rehearse(rt.alloc(), &bytes)?;
    rt.print(text)
}
