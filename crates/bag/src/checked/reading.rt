// Reading a bag, and asking what it says.
ghost use Rattle.std.specs.Prelude.{◌≡◌};
ghost use Rattle.parts.specs.Reading.{Within};
ghost use Rattle.entry.specs.Rounds.{body_in, most_bodies};
ghost use Rattle.bag.specs.Bags.{bag_head, entries_from, no_mail, read_bag};
ghost use Rattle.bag.specs.Checked.{checked, filed_mail, mail_in, said};

use crate::checked::CheckedBag;
use crate::checked::entries::{read_again, read_entries};
use crate::offsets::Offsets;
use body::kinds::Limits;
use body::sorts::{Acknowledgements, Lists, Warrants};
use entry::letter::Entry;
use entry::round::{Awaited, Round};
use fault::{Fault, Layer, Refusal};
use parts::span::{Part, Span};

// How many bytes the head of a bag takes.
const HEAD_SIZE: usize = 3;

// The head of a bag: how many entries there are.
fn read_head(span: Span, awaited: Awaited) -> Result<Part<u8>, Fault>
    ensures answer { result ≡ bag_head awaited span.entry.bytes.now span.entry.offset }
    ensures within { Within span.entry.bytes.now result }
{
    let [a, b, count] = span.first_bytes::<HEAD_SIZE>(Layer::Bag)?;
    let word = u16::from_be_bytes([a, b]);
    if word >> 5 != awaited.phase || (word >> 3) % 4 != u16::from(awaited.round.code()) {
        return Err(span.fault(Refusal::OtherRound, Layer::Bag));
    }
    if word % 8 != 0 {
        return Err(span.fault(Refusal::NotZero, Layer::Bag));
    }
    Ok(Part {
        value: count,
        size: HEAD_SIZE,
    })
}

// Where the entries of a round begin. This switch and the one below are no plainer in one place, which takes a trait with a generic method for two callers.
fn read_round(span: Span, count: u8, limits: Limits, round: Round) -> Result<Offsets, Fault>
    ensures { filed_mail limits (body_in round limits) span.entry.bytes.now span.entry.offset result ≡ entries_from limits (most_bodies round) (body_in round limits) count no_mail span.entry.bytes.now span.entry.offset }
{
    let most = round.most_bodies();
    match round {
        Round::List => read_entries::<Lists>(span, count, limits, most),
        Round::Acknowledgement => read_entries::<Acknowledgements>(span, count, limits, most),
        Round::Nomination | Round::Release => {
            read_entries::<Warrants>(span, count, limits, most)
        }
    }
}

// Reads a bag whole, or says the first fault that it has.
pub fn read_bag<'a>(
    bytes: &'a [u8],
    limits: Limits,
    awaited: Awaited,
) -> Result<CheckedBag<'a>, Fault>
    ensures answer { checked result ≡ read_bag limits awaited bytes.now }
{
    let span = Span::whole(bytes);
    let head = read_head(span, awaited)?;
    let entries = span.behind(head.size);
    let round = awaited.round;
    let offsets = read_round(entries, head.value, limits, round)?;
    Ok(CheckedBag {
        bytes,
        offsets,
        limits,
        round,
    })
}

// What the entry of a round says at the front of the span.
fn read_again_in(span: Span, limits: Limits, round: Round) -> Result<Entry, Fault>
    ensures { result ≡ said limits (body_in round limits) span.entry.bytes.now span.entry.offset }
{
    match round {
        Round::List => read_again::<Lists>(span, limits),
        Round::Acknowledgement => read_again::<Acknowledgements>(span, limits),
        Round::Nomination | Round::Release => read_again::<Warrants>(span, limits),
    }
}

impl CheckedBag<'_> {
    // What the bag has for a recipient from a sender; nothing for a host that there is not. `ok` drops no fault: an entry that was read is read again as the same.
    pub fn entry(&self, recipient: u8, sender: u8) -> Option<Entry>
        ensures { result ≡ mail_in self.now recipient sender }
    {
        let offset = self.offsets.get(recipient, sender)?;
        let entries = Span::whole(self.bytes).behind(HEAD_SIZE);
        read_again_in(entries.behind(offset), self.limits, self.round).ok()
    }
}
