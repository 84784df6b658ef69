// Reading the entries of a bag, each where it stands.
ghost use Rattle.std.specs.Prelude.{◌≡◌, Some};
ghost use Rattle.fault.specs.declared.Layer.TheVariants as layers;
ghost use Rattle.parts.specs.Numbers.{word};
ghost use Rattle.parts.specs.Reading.{Within, giving, part};
ghost use Rattle.entry.specs.Entries.{entry, fields, head_tests};
ghost use Rattle.entry.specs.Raw.{met_of, opened};
ghost use Rattle.bag.specs.Bags.{entries_from, no_mail};
ghost use Rattle.bag.specs.Checked.{filed_mail, is_filed, said};

use crate::offsets::Offsets;
use body::BodySort;
use body::kinds::Limits;
use entry::letter::{Entry, Head, MetEntry};
use entry::{decode, read_content};
use fault::{Fault, Layer, Refusal};
use parts::span::{Part, Span};

// The head at the front of the span, of a pair that has no entry yet, in a round whose letters have at most so many bodies.
fn read_head(span: Span, limits: Limits, most: u8, offsets: &Offsets) -> Result<Part<Head>, Fault>
    ensures answer { result ≡ part 2 word layers.Entry (λ w. head_tests limits most (is_filed offsets.now.rows) (fields w)) fields span.entry.bytes.now span.entry.offset }
    ensures within { Within span.entry.bytes.now result }
{
    let front = Head::read(span)?;
    let head = front.value;
    let is_met = offsets.get(head.recipient, head.sender).is_some();
    // `map_err` is no plainer: its closure needs a clause of its own.
    if let Err(refusal) = head.check(limits, most, is_met) {
        return Err(span.fault(refusal, Layer::Entry));
    }
    Ok(front)
}

// The entry at the front of the span, tested in the same way.
fn read_entry<'a, B: BodySort>(
    span: Span<'a>,
    limits: Limits,
    most: u8,
    offsets: &Offsets,
) -> Result<Part<MetEntry<'a>>, Fault>
    ensures answer { opened (met_of (giving B.BodySort.body (B.BodySort.reading limits))) result ≡ giving Some (entry limits most (giving B.BodySort.body (B.BodySort.reading limits)) (is_filed offsets.now.rows)) span.entry.bytes.now span.entry.offset }
    ensures within { Within span.entry.bytes.now result }
{
    let front = read_head(span, limits, most, offsets)?;
    let content = read_content::<B>(span.behind(front.size), front.value, limits)?;
    Ok(Part {
        value: content.value,
        size: front.size + content.size,
    })
}

// What the entry at the front of the span says. It was tested when the bag was read, and is not tested again.
#[tactic(auto, unfolding(crate::specs::Checked::said))]
pub(crate) fn read_again<B: BodySort>(span: Span, limits: Limits) -> Result<Entry, Fault>
    ensures { result ≡ said limits (giving B.BodySort.body (B.BodySort.reading limits)) span.entry.bytes.now span.entry.offset }
{
    let head = Head::read(span)?;
    let content = read_content::<B>(span.behind(head.size), head.value, limits)?;
    decode::<B>(&content.value.entry, limits)
}

// Where the entries begin that stand one behind the other, each where the one before it ends: a chain would have to carry the place and the table along. The limits are the council's, and the most bodies the round's, so they are passed apart.
pub(crate) fn read_entries<B: BodySort>(
    span: Span,
    count: u8,
    limits: Limits,
    most: u8,
) -> Result<Offsets, Fault>
    ensures { filed_mail limits (giving B.BodySort.body (B.BodySort.reading limits)) span.entry.bytes.now span.entry.offset result ≡ entries_from limits most (giving B.BodySort.body (B.BodySort.reading limits)) count no_mail span.entry.bytes.now span.entry.offset }
{
    let mut offsets = Offsets::new();
    let mut used = 0;
    for _k in 0..count {
        let entry = read_entry::<B>(span.behind(used), limits, most, &offsets)?;
        offsets.file(entry.value.recipient, entry.value.sender, used);
        used += entry.size;
    }
    if used < span.bytes.len() {
        return Err(span.behind(used).fault(Refusal::LeftOver, Layer::Bag));
    }
    Ok(offsets)
}
