// Some bytes of a bag, with their place in it.
ghost use Rattle.std.specs.Prelude.{◌+◌, ◌^◌, ◌<◌, length};

mod reading;

// Bytes that are borrowed from a bag, and the offset of the first of them, counted from the bag's first byte.
#[derive(Clone, Copy)]
pub struct Span<'a> {
    pub bytes: &'a [u8],
    pub offset: usize,
    ghost fits: { offset + length bytes.now < 2 ^ 64 },
}

// What was read at the front of some bytes, and how many of them it took.
// Not more than there were: each contract says so by `Within`, since no type of an answer can name the bytes that were asked about.
#[derive(Clone, Copy)]
pub struct Part<T> {
    pub value: T,
    pub size: usize,
}
