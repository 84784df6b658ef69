// Why a call is refused: every refusal of the system, with its number, and where in a call it was found.
#![tactic(auto)]

ghost use Rattle.std.specs.Prelude.{◌≡◌};
ghost use Rattle.fault.specs.Refusals.{layer_number, number};

// A refusal (an error code): of a setup, of which no council can be made; of a sealing; of a call; of a bag of letters; of a verdict.
#[derive(Clone, Copy, Debug, Eq, PartialEq)]
pub enum Refusal {
    // the number of hosts is not 1 to 16
    HostCount = 1,
    // fewer than 3t + 1 hosts
    FaultBound = 2,
    // the fault set names a host that there is not, or more than t
    FaultSet = 3,
    // the number of candidates is not 1 to 32
    CandidateCount = 4,
    // two candidates are equal
    EqualCandidates = 5,
    // not as many inputs as hosts
    InputCount = 6,
    // an honest input equals no candidate
    StrayInput = 7,
    // the rota is for another number of hosts
    RotaHosts = 8,
    // the keeper is for other hosts or open ones, has no phases, or holds a number already
    UnfitKeeper = 9,
    // a number is to be sealed for a host that there is not
    UnknownSealer = 11,
    // for a phase that is not below the horizon
    PastHorizon = 12,
    // for an open host
    OpenSealer = 13,
    // where a number was sealed before
    SealedBefore = 14,
    // the council could not be made
    VoidCouncil = 20,
    // the council is closed
    ClosedCouncil = 21,
    // another call is awaited, or the open try is of another phase
    OtherCall = 22,
    // a list is called for at the keeper's horizon
    AtHorizon = 23,
    // a part of the bag is longer than what is left of it
    ShortPart = 30,
    // the bag is of another phase or round
    OtherRound = 31,
    // bits that have to be zero are set
    NotZero = 32,
    // bytes are left behind the last entry
    LeftOver = 33,
    // the sender or the recipient is a host that there is not
    UnknownHost = 34,
    // a letter from a host to itself
    SameHost = 35,
    // a letter to a faulty host
    FaultyRecipient = 36,
    // carried from a faulty host, or forged from an honest one
    WrongOrigin = 37,
    // the pair of hosts had an entry before
    PairMet = 38,
    // more bodies than the round allows
    BodyCount = 39,
    // a candidate that there is not
    UnknownPlace = 40,
    // a signer that there is not
    UnknownSigner = 41,
    // a verdict of a host that there is not
    NoHost = 50,
    // of a faulty host
    NotHonest = 51,
    // of a host that has not decided
    Undecided = 52,
    // at a place beyond the table that is given
    BeyondTable = 53,
}

impl Refusal {
    // The number by which a refusal is known outside.
    pub fn number(&self) -> u8
        ensures { result ≡ number self.now }
    {
        *self as u8
    }
}

// How deep in a call a fault was found.
#[derive(Clone, Copy, Debug, Eq, PartialEq)]
pub enum Layer {
    // in the call itself, ahead of its bag
    Call = 1,
    // in the bag's head, or behind its last entry
    Bag = 2,
    // in an entry's head, or in its set of candidates
    Entry = 3,
    // in a body
    Body = 4,
}

impl Layer {
    // The number by which a layer is known outside, got as a refusal's and a round's are: a trait for the three would be longer.
    pub fn number(&self) -> u8
        ensures { result ≡ layer_number self.now }
    {
        *self as u8
    }
}

// Why and where a call was refused. The offset is that of the first byte of the part that was being read, counted from the bag's first; in the call itself it is 0, and no option, since a fault is always three numbers outside.
#[derive(Clone, Copy, Debug, Eq, PartialEq)]
pub struct Fault {
    pub refusal: Refusal,
    pub layer: Layer,
    pub offset: usize,
}
