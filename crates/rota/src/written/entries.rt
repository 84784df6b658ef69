// What a written rota keeps.
ghost use Rattle.std.specs.Prelude.{◌≡◌, ◌<◌, ◌≤◌, true};
ghost use Rattle.rota.specs.Cycles.{names_exactly};

// The first `len` entries are the owners of the phases, over and over. There are no hosts where it was made from bad entries: making one cannot fail, and a council refuses it.
// They are an array with a length beside it: a rota is `Copy`, and an `ArrayVec` is not.
#[derive(Clone, Copy)]
pub struct WrittenRota {
    pub(crate) hosts: u8,
    pub(crate) len: u8,
    pub(crate) entries: [u8; 64],
    ghost few: { hosts ≤ 16 },
    ghost short: { len ≤ 64 },
    ghost some: { 0 < hosts → 0 < len },
    ghost none: { hosts ≡ 0 → len ≡ 0 },
    ghost exact: { names_exactly entries len hosts ≡ true },
}
