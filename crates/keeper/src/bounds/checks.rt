// The tests that all keepers share.
ghost use Rattle.std.specs.Prelude.{◌≡◌};
ghost use Rattle.keeper.specs.Keeping.{fresh, is_genuine, is_inside, nothing, sealing};
ghost use Rattle.keeper.specs.Bounding.{kept, positions};

use crate::bounds::Bounds;
use crate::position::Position;
use fault::Refusal;
use sets::{PHASES, has_host, has_only_below, is_host_count};

impl Bounds {
    // The bounds of a new keeper with room for so many numbers: all 0 where n is no number of hosts, or a host that there is not is open. No refusal: a keeper is made of whatever is given, and this is the struct that holds it together.
    pub fn new(n: u8, opened: u16, room: usize) -> Bounds
        ensures { kept result nothing ≡ fresh n opened room }
    {
        if !is_host_count(n) || !has_only_below(opened, n) {
            return Bounds {
                hosts: 0,
                opened: 0,
                horizon: 0,
            };
        }
        let horizon = (room / (2 * usize::from(n))).min(usize::from(PHASES)) as u16;
        Bounds {
            hosts: n,
            opened,
            horizon,
        }
    }

    // How many positions there are: two sorts for each host and phase.
    pub fn position_count(&self) -> usize
        ensures { result ≡ positions self.now }
    {
        2 * usize::from(self.hosts) * usize::from(self.horizon)
    }

    // Whether there is such a position.
    pub fn is_inside(&self, at: Position) -> bool
        ensures { result ≡ is_inside (kept self.now nothing) at }
    {
        at.host < self.hosts && at.phase < self.horizon
    }

    // Whether a number may be sealed at a position where `held` stands.
    pub fn judge(&self, at: Position, held: Option<u32>) -> Result<(), Refusal>
        ensures { result ≡ sealing (kept self.now (λ _. held)) at }
    {
        // guards, in the order of the refusals: a chain of `ok_or` and `?` says no more
        if at.host >= self.hosts {
            return Err(Refusal::UnknownSealer);
        }
        if at.phase >= self.horizon {
            return Err(Refusal::PastHorizon);
        }
        if has_host(self.opened, at.host) {
            return Err(Refusal::OpenSealer);
        }
        if held.is_some() {
            return Err(Refusal::SealedBefore);
        }
        Ok(())
    }

    // Whether a number is genuine at a position where `held` stands.
    pub fn is_genuine(&self, at: Position, held: Option<u32>, number: u32) -> bool
        ensures { result ≡ is_genuine (kept self.now (λ _. held)) at number }
    {
        self.is_inside(at) && (has_host(self.opened, at.host) || held == Some(number))
    }
}
