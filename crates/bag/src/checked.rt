// A bag that was read whole.
use crate::offsets::Offsets;
use body::kinds::Limits;
use entry::round::Round;

mod entries;
mod reading;

pub use reading::read_bag;

// A bag without a fault: its bytes, where each pair's entry begins, and what it was read against.
#[derive(Clone, Copy)]
pub struct CheckedBag<'a> {
    bytes: &'a [u8],
    offsets: Offsets,
    limits: Limits,
    round: Round,
}
