// Sets of hosts (the processes that are to agree) as 16-bit masks, in which host j weighs 2^j, and of candidates as 32-bit masks, in which place c weighs 2^c.
#![tactic(auto)]

ghost use Rattle.std.specs.Prelude.{◌≡◌};
ghost use Rattle.sets.specs.Sets.{count, has, is_host_count, is_mask_of, only_below};

// The most hosts that a council has, and that a mask can name.
pub const HOSTS: u8 = 16;

// Phases are numbered from 0 to 2,047.
pub const PHASES: u16 = 2048;

// Whether a council can have so many hosts.
pub fn is_host_count(n: u8) -> bool
    ensures { result ≡ is_host_count n }
{
    (1..=HOSTS).contains(&n)
}

// Whether the set has the host, which none has from 16 on.
pub fn has_host(hosts: u16, host: u8) -> bool
    ensures { result ≡ has hosts host }
{
    host < HOSTS && (hosts >> host) & 1 == 1
}

// Whether the set names only hosts below n.
#[tactic(auto, using(crate::proofs::Masks::below_is_mask))]
pub fn has_only_below(hosts: u16, n: u8) -> bool
    ensures { result ≡ only_below n hosts }
{
    is_mask_of(u32::from(hosts), n)
}

// How many hosts the set has.
pub fn count_hosts(hosts: u16) -> u32
    ensures { result ≡ count 16 (has hosts) }
{
    hosts.count_ones()
}

// Whether the set has only members below n.
pub fn is_mask_of(mask: u32, n: u8) -> bool
    ensures { result ≡ is_mask_of n mask }
{
    n >= 32 || mask < 1 << n
}
