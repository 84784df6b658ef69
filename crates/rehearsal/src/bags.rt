// The bags behind a setup: each has the letters (messages) of one round.
ghost use Rattle.std.specs.Prelude.{◌≡◌};
ghost use Rattle.rehearsal.specs.Bags.{bags_of, counted};

// How many whole bags there are, and whether bytes are missing in one more bag or its count. Both are always said.
#[derive(Clone, Copy)]
pub struct BagCount {
    pub whole: usize,
    pub torn: bool,
}

// Counts the bags, each of which stands after its number of bytes in 16 bits.
pub(crate) fn count_bags(bytes: &[u8]) -> BagCount
    ensures { result ≡ counted (bags_of bytes.now) }
{
    let mut whole = 0;
    let mut rest = bytes;
    while let Some((size, behind)) = rest.split_first_chunk::<2>() {
        let size = usize::from(u16::from_be_bytes(*size));
        let Some((_, after)) = behind.split_at_checked(size) else {
            return BagCount { whole, torn: true };
        };
        whole += 1;
        rest = after;
    }
    BagCount {
        whole,
        torn: !rest.is_empty(),
    }
}
