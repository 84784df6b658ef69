// The three sorts of body.
ghost use Rattle.std.specs.Prelude.{◌≡◌};
ghost use Rattle.parts.specs.Reading.{Within};
ghost use Rattle.body.specs.declared.kinds.Body.TheVariants as bodies;
ghost use Rattle.body.specs.Bodies.{acknowledgement, list, lists_from, places, warrant, warrant_front};
ghost use Rattle.std.proofs.Common.{rules};
ghost use Rattle.body.specs.Warrants.{warrant_sound};

use crate::BodySort;
use crate::kinds::{Body, Limits, Warrant};
use fault::{Fault, Layer, Refusal};
use parts::span::{Part, Span};
use sets::{has_host, is_mask_of};

// A set of candidates at the front of the span.
pub fn read_places(span: Span, layer: Layer, limits: Limits) -> Result<Part<u32>, Fault>
    ensures answer { result ≡ places limits layer span.entry.bytes.now span.entry.offset }
    ensures within { Within span.entry.bytes.now result }
{
    let mask = u32::from_be_bytes(span.first_bytes(layer)?);
    if !is_mask_of(mask, limits.places) {
        return Err(span.fault(Refusal::UnknownPlace, layer));
    }
    Ok(Part {
        value: mask,
        size: 4,
    })
}

// Lists, the bodies of the first round.
pub struct Lists;

impl BodySort for Lists {
    type Read = u32;

    ghost reading = { list };

    ghost body = { bodies.List };

    ghost sound = { Prim.search rules };

    fn read(span: Span, limits: Limits) -> Result<Part<u32>, Fault> {
        read_places(span, Layer::Body, limits)
    }

    fn into_body(read: u32) -> Body {
        Body::List(read)
    }
}

// Acknowledgements, the bodies of the third round.
pub struct Acknowledgements;

impl BodySort for Acknowledgements {
    type Read = u8;

    ghost reading = { acknowledgement };

    ghost body = { bodies.Acknowledgement };

    ghost sound = { Prim.search rules };

    fn read(span: Span, limits: Limits) -> Result<Part<u8>, Fault> {
        let [byte] = span.first_bytes::<1>(Layer::Body)?;
        let place = byte / 8;
        if place >= limits.places {
            return Err(span.fault(Refusal::UnknownPlace, Layer::Body));
        }
        if byte % 8 != 0 {
            return Err(span.fault(Refusal::NotZero, Layer::Body));
        }
        Ok(Part {
            value: place,
            size: 1,
        })
    }

    fn into_body(read: u8) -> Body {
        Body::Acknowledgement(read)
    }
}

// How a warrant begins: all but its lists.
fn read_front(span: Span, limits: Limits) -> Result<Part<Warrant>, Fault>
    ensures answer { result ≡ warrant_front limits span.entry.bytes.now span.entry.offset }
    ensures within { Within span.entry.bytes.now result }
{
    let [first, second, high, low] = span.first_bytes::<4>(Layer::Body)?;
    let place = first / 8;
    let phase = u16::from_be_bytes([first % 8, second]);
    let signers = u16::from_be_bytes([high, low]);
    if place >= limits.places {
        return Err(span.fault(Refusal::UnknownPlace, Layer::Body));
    }
    if !is_mask_of(u32::from(signers), limits.hosts) {
        return Err(span.fault(Refusal::UnknownSigner, Layer::Body));
    }
    Ok(Part {
        value: Warrant {
            place,
            phase,
            signers,
            lists: [0; 16],
        },
        size: 4,
    })
}

// A list for each signer, ascending, behind what a warrant begins with.
fn read_lists(span: Span, front: Warrant, limits: Limits) -> Result<Part<Warrant>, Fault>
    ensures answer { result ≡ lists_from limits 16 0 front span.entry.bytes.now span.entry.offset }
    ensures within { Within span.entry.bytes.now result }
{
    let mut warrant = front;
    let mut size = 0;
    for (host, list) in warrant.lists.iter_mut().enumerate() {
        if has_host(warrant.signers, host as u8) {
            let read = read_places(span.behind(size), Layer::Body, limits)?;
            *list = read.value;
            size += read.size;
        }
    }
    Ok(Part {
        value: warrant,
        size,
    })
}

// Warrants, the bodies of the second and the fourth round.
pub struct Warrants;

impl BodySort for Warrants {
    type Read = Warrant;

    ghost reading = { warrant };

    ghost body = { bodies.Warrant };

    ghost sound = { warrant_sound };

    fn read(span: Span, limits: Limits) -> Result<Part<Warrant>, Fault> {
        let front = read_front(span, limits)?;
        let whole = read_lists(span.behind(front.size), front.value, limits)?;
        Ok(Part {
            value: whole.value,
            size: front.size + whole.size,
        })
    }

    fn into_body(read: Warrant) -> Body {
        Body::Warrant(read)
    }
}
