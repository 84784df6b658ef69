// Keepers of seals (the authentication of the council): what was sealed, by which host, once and for good.
#![tactic(auto)]

ghost use Rattle.std.specs.Prelude.{◌≡◌, OnOk};
ghost use Rattle.keeper.specs.Bounding.{kept};
ghost use Rattle.keeper.specs.Keeping.{Keeping, Sound, held_count, is_genuine, sealed, sealing};
ghost use Rattle.keeper.specs.Seals.{Authentic, Counted, ForGood, attested, attesting};

use bounds::Bounds;
use fault::Refusal;
use position::Position;

pub mod bounds;
pub mod position;

// A keeper, by what it means. No question alters it. A position and its number are passed apart, as the key and the value of a map's insert are.
pub trait Keeper {
    ghost keeping: { Self → Keeping };

    // How many hosts take part.
    fn host_count(&self) -> u8
        ensures { result ≡ (keeping self.now).hosts };

    // The set of hosts that are open (faulty): any number passes for theirs.
    fn open_hosts(&self) -> u16
        ensures { result ≡ (keeping self.now).opened };

    // The number of phases for which numbers can be sealed.
    fn horizon(&self) -> u16
        ensures { result ≡ (keeping self.now).horizon };

    // How many numbers are held.
    fn held_count(&self) -> usize
        ensures { result ≡ held_count (keeping self.now) };

    // Whether the number counts as sealed by its host.
    fn is_genuine(&self, at: Position, number: u32) -> bool
        ensures { result ≡ is_genuine (keeping self.now) at number };

    // Seals one number more, or refuses and keeps all as it was.
    fn seal(&mut self, at: Position, number: u32) -> Result<(), Refusal>
        ensures answer { result ≡ sealing (keeping self.old) at }
        ensures after { keeping self.new ≡ sealed (keeping self.old) at number };

    ghost sound: { (k : Self) → Sound (keeping k) };
}

// A keeper that can also say which number it holds: it writes four functions, and what else is asked follows from its bounds and its numbers.
// It is a `Keeper` by the impl below. Not every keeper is one: no answer of a `Keeper` tells the number of an open host.
pub trait MapKeeper {
    ghost keeping: { Self → Keeping };

    // The hosts that take part, those that are open, and the phases.
    fn bounds(&self) -> Bounds
        ensures { kept result (keeping self.now).held ≡ keeping self.now };

    // The number that is held at a position.
    fn number_at(&self, at: Position) -> Option<u32>
        ensures { result ≡ (keeping self.now).held at };

    // How many numbers are held.
    fn held_count(&self) -> usize
        ensures { result ≡ held_count (keeping self.now) };

    // Seals one number more, or refuses and keeps all as it was.
    fn seal(&mut self, at: Position, number: u32) -> Result<(), Refusal>
        ensures answer { result ≡ sealing (keeping self.old) at }
        ensures after { keeping self.new ≡ sealed (keeping self.old) at number };

    // How many hosts take part.
    fn host_count(&self) -> u8
        ensures { result ≡ (keeping self.now).hosts }
    {
        self.bounds().hosts
    }

    // The set of hosts that are open (faulty): any number passes for theirs.
    fn open_hosts(&self) -> u16
        ensures { result ≡ (keeping self.now).opened }
    {
        self.bounds().opened
    }

    // The number of phases for which numbers can be sealed.
    fn horizon(&self) -> u16
        ensures { result ≡ (keeping self.now).horizon }
    {
        self.bounds().horizon
    }

    // Whether the number counts as sealed by its host.
    fn is_genuine(&self, at: Position, number: u32) -> bool
        ensures { result ≡ is_genuine (keeping self.now) at number }
    {
        self.bounds().is_genuine(at, self.number_at(at), number)
    }

    // Whether a number may be sealed at a position.
    fn judge(&self, at: Position) -> Result<(), Refusal>
        ensures { result ≡ sealing (keeping self.now) at }
    {
        self.bounds().judge(at, self.number_at(at))
    }

    ghost sound: { (k : Self) → Sound (keeping k) };
}

// A keeper that can say which number it holds is a keeper.
impl<K: MapKeeper> Keeper for K {
    ghost keeping = { K.MapKeeper.keeping };

    ghost sound = { K.MapKeeper.sound };

    fn host_count(&self) -> u8 {
        MapKeeper::host_count(self)
    }

    fn open_hosts(&self) -> u16 {
        MapKeeper::open_hosts(self)
    }

    fn horizon(&self) -> u16 {
        MapKeeper::horizon(self)
    }

    fn held_count(&self) -> usize {
        MapKeeper::held_count(self)
    }

    fn is_genuine(&self, at: Position, number: u32) -> bool {
        MapKeeper::is_genuine(self, at, number)
    }

    fn seal(&mut self, at: Position, number: u32) -> Result<(), Refusal> {
        MapKeeper::seal(self, at, number)
    }
}

// Sees to it that a number is genuine: seals it, unless it is so already. May be called again after a run that was broken off.
pub fn attest<K: Keeper>(keeper: &mut K, at: Position, number: u32) -> Result<(), Refusal>
    ensures answer { result ≡ attesting (K.Keeper.keeping keeper.old) at number }
    ensures after { K.Keeper.keeping keeper.new ≡ attested (K.Keeper.keeping keeper.old) at number }
    ensures stands { OnOk result (ForGood (K.Keeper.keeping keeper.new) at number) }
{
    if keeper.is_genuine(at, number) {
        return Ok(());
    }
    keeper.seal(at, number)
}

// A theorem of what keepers mean: exactly the numbers that a host sealed are genuine, unless the host is open.
pub fn genuine_is_what_was_sealed()
    ensures { Authentic }
{}

// A theorem of what keepers mean: as many numbers are held as sealings were accepted.
pub fn every_sealing_is_counted()
    ensures { Counted }
{}
