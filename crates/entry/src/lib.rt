// Entries of a bag: a head, and for a forged letter what it says.
#![tactic(auto)]

ghost use Rattle.std.specs.Prelude.{◌≡◌, [], IfOk, Some};
ghost use Rattle.fault.specs.declared.Layer.TheVariants as layers;
ghost use Rattle.fault.specs.Refusals.{first_that_holds, unless};
ghost use Rattle.parts.specs.Numbers.{word};
ghost use Rattle.parts.specs.Reading.{Within, giving, part};
ghost use Rattle.entry.specs.Entries.{bodies_of, content, fields, head_tests, met};
ghost use Rattle.entry.specs.Raw.{Borrows, entry_in, entry_of, met_of, opened};

use body::BodySort;
use body::kinds::Limits;
use body::sorts::read_places;
use fault::{Fault, Layer, Refusal};
use letter::{Bodies, Entry, Head, Letter, MetEntry, RawEntry};
use parts::span::{Part, Span};
use sets::has_host;

pub mod letter;
pub mod round;

impl Head {
    // The fields of two bytes.
    pub fn unpack(word: u16) -> Head
        ensures { result ≡ fields word }
    {
        Head {
            forged: word >> 15 == 1,
            sender: ((word >> 11) % 16) as u8,
            recipient: ((word >> 7) % 16) as u8,
            input: ((word >> 2) % 32) as u8,
            count: (word % 4) as u8,
        }
    }

    // The head at the front of the span, not tested yet.
    pub fn read(span: Span) -> Result<Part<Head>, Fault>
        ensures answer { result ≡ part 2 word layers.Entry (λ _. []) fields span.entry.bytes.now span.entry.offset }
        ensures within { Within span.entry.bytes.now result }
    {
        let word = u16::from_be_bytes(span.first_bytes(Layer::Entry)?);
        Ok(Part {
            value: Head::unpack(word),
            size: 2,
        })
    }

    // Refuses a head by the first thing that is wrong with it, in a round whose letters have at most so many bodies. That its pair was met only the bag knows.
    pub fn check(&self, limits: Limits, most: u8, is_met: bool) -> Result<(), Refusal>
        ensures { result ≡ unless (first_that_holds (head_tests limits most (λ _ _. is_met) self.now)) tt }
    {
        if self.sender >= limits.hosts || self.recipient >= limits.hosts {
            return Err(Refusal::UnknownHost);
        }
        if self.sender == self.recipient {
            return Err(Refusal::SameHost);
        }
        if has_host(limits.faulty, self.recipient) {
            return Err(Refusal::FaultyRecipient);
        }
        if self.forged != has_host(limits.faulty, self.sender) {
            return Err(Refusal::WrongOrigin);
        }
        if is_met {
            return Err(Refusal::PairMet);
        }
        if !self.forged && (self.input != 0 || self.count != 0) {
            return Err(Refusal::NotZero);
        }
        if self.forged && self.count > most {
            return Err(Refusal::BodyCount);
        }
        if self.forged && self.input >= limits.places {
            return Err(Refusal::UnknownPlace);
        }
        Ok(())
    }
}

// As many bodies as are asked for, two at the most.
#[tactic(auto, unfolding(crate::specs::Entries::bodies_of))]
fn read_bodies<B: BodySort>(span: Span, count: u8, limits: Limits) -> Result<Part<Bodies>, Fault>
    ensures answer { result ≡ bodies_of (giving B.BodySort.body (B.BodySort.reading limits)) count span.entry.bytes.now span.entry.offset }
    ensures within { Within span.entry.bytes.now result }
{
    if count == 0 {
        return Ok(Part {
            value: Bodies::None,
            size: 0,
        });
    }
    let first = B::read(span, limits)?;
    let one = B::into_body(first.value);
    if count == 1 {
        return Ok(Part {
            value: Bodies::One(one),
            size: first.size,
        });
    }
    let second = B::read(span.behind(first.size), limits)?;
    let two = B::into_body(second.value);
    Ok(Part {
        value: Bodies::Two(one, two),
        size: first.size + second.size,
    })
}

// What an entry says, its bodies read from the bytes that it borrows.
pub fn decode<B: BodySort>(entry: &RawEntry, limits: Limits) -> Result<Entry, Fault>
    ensures { result ≡ entry_of (giving B.BodySort.body (B.BodySort.reading limits)) entry.now }
{
    match *entry {
        RawEntry::Carried => Ok(Entry::Carried),
        RawEntry::Forged {
            input,
            proper,
            count,
            bodies: bytes,
            offset,
        } => {
            let bodies = read_bodies::<B>(Span::at(bytes, offset), count, limits)?;
            Ok(Entry::Forged(Letter {
                input,
                proper,
                bodies: bodies.value,
            }))
        }
    }
}

// What stands behind the head of an entry.
fn read_raw<'a, B: BodySort>(
    span: Span<'a>,
    head: Head,
    limits: Limits,
) -> Result<Part<RawEntry<'a>>, Fault>
    ensures answer { opened (entry_in (giving B.BodySort.body (B.BodySort.reading limits))) result ≡ giving Some (content limits (giving B.BodySort.body (B.BodySort.reading limits)) head) span.entry.bytes.now span.entry.offset }
    ensures borrowed { IfOk result (λ p. Borrows p.value p.size span.entry.bytes.now span.entry.offset) }
    ensures within { Within span.entry.bytes.now result }
{
    if !head.forged {
        return Ok(Part {
            value: RawEntry::Carried,
            size: 0,
        });
    }
    let proper = read_places(span, Layer::Entry, limits)?;
    let rest = span.behind(proper.size);
    let bodies = read_bodies::<B>(rest, head.count, limits)?;
    let own = rest.front(bodies.size);
    Ok(Part {
        value: RawEntry::Forged {
            input: head.input,
            proper: proper.value,
            count: head.count,
            bodies: own.bytes,
            offset: own.offset,
        },
        size: proper.size + bodies.size,
    })
}

// The same, with the pair that the head names.
pub fn read_content<'a, B: BodySort>(
    span: Span<'a>,
    head: Head,
    limits: Limits,
) -> Result<Part<MetEntry<'a>>, Fault>
    ensures answer { opened (met_of (giving B.BodySort.body (B.BodySort.reading limits))) result ≡ giving (λ e. Some (met head.recipient head.sender e)) (content limits (giving B.BodySort.body (B.BodySort.reading limits)) head) span.entry.bytes.now span.entry.offset }
    ensures borrowed { IfOk result (λ p. Borrows p.value.entry p.size span.entry.bytes.now span.entry.offset) }
    ensures within { Within span.entry.bytes.now result }
{
    let content = read_raw::<B>(span, head, limits)?;
    Ok(Part {
        value: MetEntry {
            recipient: head.recipient,
            sender: head.sender,
            entry: content.value,
        },
        size: content.size,
    })
}
