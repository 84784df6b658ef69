// Rotas by a list of entries.
ghost use Rattle.std.specs.Prelude.{◌≡◌, ◌==◌, nat_lt, slice_index};
ghost use Rattle.std.specs.List.{list_all, list_any, range_with_len};
ghost use Rattle.rota.specs.Cycles.{by_entries, cycle, is_written};
ghost use Rattle.rota.specs.Written.{written_schedule};
ghost use Rattle.rota.specs.Repeating.{sound_entries, sound_if};

use crate::{Rota, turn_at};
use entries::WrittenRota;
use sets::is_host_count;

pub mod entries;

// Whether each entry is below n.
fn are_below(entries: &[u8], n: u8) -> bool
    ensures { result ≡ list_all (λ x. nat_lt x n) entries.now }
{
    entries.iter().all(|entry| *entry < n)
}

// Whether some entry names each host below n.
fn name_all(entries: &[u8], n: u8) -> bool
    ensures { result ≡ list_all (λ h. list_any (λ x. x == h) entries.now) (range_with_len 0 n) }
{
    (0..n).all(|host| entries.contains(&host))
}

// Whether the entries can be a rota of n hosts. The two are passed apart until `WrittenRota` holds them.
fn are_rota(entries: &[u8], n: u8) -> bool
    ensures { result ≡ is_written n entries.now }
{
    is_host_count(n)
        && (1..=64).contains(&entries.len())
        && are_below(entries, n)
        && name_all(entries, n)
}

impl WrittenRota {
    // The rota by these entries, or that of no hosts where n hosts cannot have them.
    pub fn new(n: u8, entries: &[u8]) -> WrittenRota
        ensures { written_schedule result ≡ by_entries n entries.now }
    {
        let mut kept = [0; 64];
        if !are_rota(entries, n) {
            return WrittenRota {
                hosts: 0,
                len: 0,
                entries: kept,
            };
        }
        kept[..entries.len()].copy_from_slice(entries);
        WrittenRota {
            hosts: n,
            len: entries.len() as u8,
            entries: kept,
        }
    }
}

impl Rota for WrittenRota {
    ghost schedule = { written_schedule };

    ghost sound = { λ r. sound_if (nat_lt 0 r.hosts) (cycle r.hosts r.len (λ i. slice_index r.entries i)) (λ _. sound_entries r.hosts r.len r.entries r.some r.exact) };

    fn host_count(&self) -> u8 {
        self.hosts
    }

    fn window(&self) -> u8 {
        self.len
    }

    fn owner_of(&self, phase: u16) -> u8 {
        turn_at(phase, self.len).map_or(0, |turn| self.entries[usize::from(turn)])
    }
}
