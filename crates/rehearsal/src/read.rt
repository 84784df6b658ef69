// Reading the setup of a rehearsal.
ghost use Rattle.std.specs.Prelude.{◌≡◌, ℕ, ◌+◌, ◌*◌, ◌/◌, ◌<◌, ◌≤◌, List, length, slice_index, IfOk, ok_or};
ghost use Rattle.std.proofs.Common.{rules};
ghost use Rattle.rehearsal.specs.Reading.{head_in, kind_of, list_at, snapshot_at, term_at};

use candidate::snapshot::Snapshot;
use candidate::term::{Term, TimeUnit};
use std::alloc::{AllocError, Global};

// The kinds of candidate that a rehearsal can have.
#[derive(Clone, Copy, Debug, PartialEq, Eq)]
pub enum Kind {
    Snapshots,
    Terms,
}

// A sort that is no kind of candidate.
#[derive(Clone, Copy, Debug, PartialEq, Eq)]
pub struct UnknownSort(pub u8);

impl TryFrom<u8> for Kind {
    type Error = UnknownSort;

    ghost try_from_gives = { λ sort r. r ≡ ok_or (kind_of sort) (record { 0 = sort }) };

    fn try_from(sort: u8) -> Result<Self, UnknownSort> {
        match sort {
            0 => Ok(Kind::Snapshots),
            1 => Ok(Kind::Terms),
            _ => Err(UnknownSort(sort)),
        }
    }
}

// How a rehearsal begins: N hosts, t of them faulty at most, M candidates, their kind if the sort is one, and the fault set.
#[derive(Clone, Copy)]
pub struct Head {
    pub n: u8,
    pub t: u8,
    pub m: u8,
    pub kind: Option<Kind>,
    pub faulty: u16,
}

// The head, if its four bytes are there.
pub(crate) fn read_head(bytes: &[u8]) -> Option<Head>
    ensures { result ≡ head_in bytes.now }
{
    let &[first, second, high, low] = bytes.first_chunk::<4>()?;
    Some(Head {
        n: first / 8,
        t: first % 8,
        m: second / 4,
        // which unknown sort it is, is nowhere printed
        kind: Kind::try_from(second % 4).ok(),
        faulty: u16::from_be_bytes([high, low]),
    })
}

// A kind of candidate that is written in a fixed number of bytes.
pub trait Packed: Sized {
    ghost SIZE: { ℕ };

    ghost unpacked: { List ℕ → ℕ → Self };

    // How many bytes one takes.
    const SIZE: usize;

    // The candidate that these bytes are.
    fn unpack(bytes: &[u8]) -> Self
        requires { length bytes.now ≡ SIZE }
        ensures { result ≡ unpacked bytes.now 0 };

    ghost some: { 0 < SIZE };

    ghost few: { SIZE ≤ 8 };

    // Only its own bytes are read.
    ghost own: { (bs cs : List ℕ) (at place : ℕ) → ((i : ℕ) → i < SIZE → slice_index bs (at + i) ≡ slice_index cs (place + i)) → unpacked bs at ≡ unpacked cs place };
}

impl Packed for Snapshot {
    ghost SIZE = { 8 };

    ghost unpacked = { snapshot_at };

    ghost some = { Prim.search rules };

    ghost few = { Prim.search rules };

    ghost own = { Prim.search rules };

    const SIZE: usize = 8;

    fn unpack(bytes: &[u8]) -> Snapshot {
        Snapshot {
            manual: u32::from_be_bytes(*bytes.first_chunk().unwrap()),
            snapshot: u32::from_be_bytes(*bytes.last_chunk().unwrap()),
        }
    }
}

impl Packed for Term {
    ghost SIZE = { 2 };

    ghost unpacked = { term_at };

    ghost some = { Prim.search rules };

    ghost few = { Prim.search rules };

    ghost own = { Prim.search rules };

    const SIZE: usize = 2;

    fn unpack(bytes: &[u8]) -> Term {
        let &[high, low] = bytes.first_chunk::<2>().unwrap();
        Term {
            // every number of two bits is a unit's
            unit: TimeUnit::try_from(high / 64).unwrap(),
            count: u16::from_be_bytes([high % 64, low]),
        }
    }
}

// The candidates that the bytes are, one after another.
pub(crate) fn read_list<C: Packed + Drop>(heap: Global, bytes: &[u8]) -> Result<Vec<C>, AllocError>
    ensures { IfOk result (λ v. v.items ≡ list_at C.Packed.SIZE C.Packed.unpacked bytes.now 0 (length bytes.now / C.Packed.SIZE)) }
{
    bytes
        .chunks_exact(C::SIZE)
        .map(|chunk| C::unpack(chunk))
        .collect(heap)
}
