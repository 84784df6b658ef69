// What stands at the front of a span.
ghost use Rattle.std.specs.Prelude.{◌≡◌, ◌+◌, min, length, take, drop};
ghost use Rattle.fault.specs.Refusals.{fault_at};
ghost use Rattle.parts.specs.Reading.{leading, placed_at};

use crate::span::Span;
use fault::{Fault, Layer, Refusal};

impl<'a> Span<'a> {
    // All bytes of a bag.
    pub fn whole(bytes: &'a [u8]) -> Span<'a>
        ensures bytes { result.bytes.now ≡ bytes.now }
        ensures offset { result.offset ≡ 0 }
    {
        Span::at(bytes, 0)
    }

    // Bytes that begin at the offset; one so large that they would end past all numbers is taken for the largest that they can have.
    pub fn at(bytes: &'a [u8], offset: usize) -> Span<'a>
        ensures bytes { result.bytes.now ≡ bytes.now }
        ensures offset { result.offset ≡ placed_at bytes.now offset }
    {
        Span {
            bytes,
            offset: offset.min(usize::MAX - bytes.len()),
        }
    }

    // What stands behind the first n bytes.
    pub fn behind(&self, n: usize) -> Span<'a>
        ensures bytes { result.bytes.now ≡ drop n self.now.bytes.now }
        ensures offset { result.offset ≡ self.now.offset + min n (length self.now.bytes.now) }
    {
        let n = n.min(self.bytes.len());
        Span {
            bytes: &self.bytes[n..],
            offset: self.offset + n,
        }
    }

    // The first n bytes. (Of `behind` nothing is shared: these are the other bytes, and the offset stays.)
    pub fn front(&self, n: usize) -> Span<'a>
        ensures bytes { result.bytes.now ≡ take n self.now.bytes.now }
        ensures offset { result.offset ≡ self.now.offset }
    {
        let n = n.min(self.bytes.len());
        Span {
            bytes: &self.bytes[..n],
            offset: self.offset,
        }
    }

    // A fault of the part that begins here.
    pub fn fault(&self, refusal: Refusal, layer: Layer) -> Fault
        ensures { result ≡ fault_at layer self.now.offset refusal }
    {
        Fault {
            refusal,
            layer,
            offset: self.offset,
        }
    }

    // The first N bytes.
    pub fn first_bytes<const N: usize>(&self, layer: Layer) -> Result<[u8; N], Fault>
        ensures { result ≡ leading N (take N) layer self.now.bytes.now self.now.offset }
    {
        let short = self.fault(Refusal::ShortPart, layer);
        self.bytes.first_chunk().copied().ok_or(short)
    }
}
