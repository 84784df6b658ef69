// What bodies say, and what their fields are tested against.

// What the fields of a bag are tested against: the number of hosts, the number of candidates, and the set of faulty hosts.
#[derive(Clone, Copy)]
pub struct Limits {
    pub hosts: u8,
    pub places: u8,
    pub faulty: u16,
}

// A warrant (a quorum certificate): a place that was nominated in a phase, and the lists of those hosts that would accept it, by host; 0 where a host has not signed. The mask and the sixteen lists are a rule of the project (docs/DECISIONS.md, "Forms").
#[derive(Clone, Copy)]
pub struct Warrant {
    pub place: u8,
    pub phase: u16,
    pub signers: u16,
    pub lists: [u32; 16],
}

// A body of a letter.
#[derive(Clone, Copy)]
pub enum Body {
    // the candidates that a host would accept
    List(u32),
    // the owner's nomination, or a lock
    Warrant(Warrant),
    // the place that a host has locked
    Acknowledgement(u8),
}
