// Letters, and the entries of a bag by which they reach a host.
use body::kinds::Body;

// The bodies of a letter, at most two by type. An array of options could leave out the first of two, and the library's `ArrayVec` is not `Copy`.
#[derive(Clone, Copy)]
pub enum Bodies {
    None,
    One(Body),
    Two(Body, Body),
}

// What a host writes to all others in a round: the place of its input, the candidates that it knows to be proper (PROPER), and its bodies.
#[derive(Clone, Copy)]
pub struct Letter {
    pub input: u8,
    pub proper: u32,
    pub bodies: Bodies,
}

// How a letter reaches a host: an honest sender's own letter is carried, and a faulty sender's is forged, so that it says anything.
// Not an `Option<Letter>`: that the cases have these names is a rule of the project (docs/DECISIONS.md, "Forms").
#[derive(Clone, Copy)]
pub enum Entry {
    Carried,
    Forged(Letter),
}

// An entry as it was met in a bag: the bodies of a forged letter are still bytes, borrowed from the bag, with their offset. The cases are those of `Entry`, by the same rule.
// Bytes and offset are apart, and no `Span`, so that `decode` takes any offset.
#[derive(Clone, Copy)]
pub enum RawEntry<'a> {
    Carried,
    Forged {
        input: u8,
        proper: u32,
        count: u8,
        bodies: &'a [u8],
        offset: usize,
    },
}

// An entry that was met, with whom it is for and whose it is.
#[derive(Clone, Copy)]
pub struct MetEntry<'a> {
    pub recipient: u8,
    pub sender: u8,
    pub entry: RawEntry<'a>,
}

// The head of an entry, with the fields of the format: what is not forged has an input and a count too, and `check` refuses them where they are not 0.
#[derive(Clone, Copy)]
pub struct Head {
    pub forged: bool,
    pub sender: u8,
    pub recipient: u8,
    pub input: u8,
    pub count: u8,
}
