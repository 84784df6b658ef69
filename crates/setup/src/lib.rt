// Whether a council (an instance of the consensus) can be made of what is given, and where each honest input stands among the candidates.
#![tactic(auto)]

ghost use Rattle.std.specs.Prelude.{◌≡◌, ◌≤◌, length, IfOk, IfSome, Some, is_some};
ghost use Rattle.fault.specs.Refusals.{number_in};
ghost use Rattle.setup.specs.Placed.{Placed, Unseen};
ghost use Rattle.setup.specs.Setup.{all_placed, distinct, is_candidate_count, is_fault_set, judged, new_at, place_at, place_of, places_of, setup_number};

use candidate::Candidate;
use fault::Refusal;
use rota::Rota;
use sets::{count_hosts, has_host, has_only_below, is_host_count};

// The place of each honest host's input among the candidates, and none for the others: one for each host that a set of hosts can name.
#[derive(Clone, Copy)]
pub struct InputPlaces {
    pub places: [Option<u8>; 16],
}

// At most 32 candidates, and where `new` made it, at least one.
#[derive(Drop)]
struct Candidates<'a, C> {
    list: &'a [C],
    ghost few: { length list.now ≤ 32 },
}

impl<'a, C: Candidate> Candidates<'a, C> {
    // The candidates, if a council can have so many.
    fn new(list: &'a [C]) -> Option<Self>
        ensures count { is_some result ≡ is_candidate_count (length list.now) }
        ensures same { IfSome result (λ cs. cs.list.now ≡ list.now) }
    {
        if !(1..=32).contains(&list.len()) {
            return None;
        }
        Some(Candidates { list })
    }

    // The lowest place of a candidate equal to the input.
    fn place_of(&self, input: &C) -> Option<u8>
        ensures { result ≡ place_of C.Candidate.equal self.now.list.now (Some input.now) }
    {
        self.list
            .iter()
            .position(|candidate| candidate.equals(input))
            .map(|place| place as u8)
    }

    // Whether no candidate before the place is equal to that at it. (None is compared with itself, as `place_of` would: its equality may take long.)
    fn is_new_at(&self, place: usize) -> bool
        ensures { result ≡ new_at C.Candidate.equal self.now.list.now place }
    {
        match self.list.get(place) {
            Some(candidate) => self.list[..place]
                .iter()
                .all(|earlier| !earlier.equals(candidate)),
            None => true,
        }
    }

    // Whether no two candidates are equal.
    fn are_distinct(&self) -> bool
        ensures { result ≡ distinct C.Candidate.equal self.now.list.now }
    {
        (0..self.list.len()).all(|place| self.is_new_at(place))
    }
}

// What a council is to be made of: n hosts, of which at most t are faulty, the set of those, the candidates, each host's input, and the rota.
#[derive(Drop)]
pub struct Setup<'a, C, R> {
    pub n: u8,
    pub t: u8,
    pub faulty: u16,
    pub candidates: &'a [C],
    pub inputs: &'a [C],
    pub rota: &'a R,
}

impl<'a, C: Candidate, R: Rota> Setup<'a, C, R> {
    // Whether at most t hosts are faulty, all of them below n.
    fn has_fault_set(&self) -> bool
        ensures { result ≡ is_fault_set self.now.n self.now.t self.now.faulty }
    {
        has_only_below(self.faulty, self.n) && count_hosts(self.faulty) <= u32::from(self.t)
    }

    // The place of a host's input, if the host is honest and there is such an input.
    fn place_at(&self, candidates: &Candidates<C>, host: u8) -> Option<u8>
        ensures { result ≡ place_at C.Candidate.equal self.now.faulty candidates.now.list.now self.now.inputs.now host }
    {
        if has_host(self.faulty, host) {
            return None;
        }
        candidates.place_of(self.inputs.get(usize::from(host))?)
    }

    // The place of each honest host's input.
    fn places(&self, candidates: &Candidates<C>) -> [Option<u8>; 16]
        ensures { result ≡ places_of C.Candidate.equal self.now.faulty candidates.now.list.now self.now.inputs.now }
    {
        std::array::from_fn(|host| self.place_at(candidates, host as u8))
    }

    // Whether each honest host has a place.
    fn are_placed(&self, places: &[Option<u8>; 16]) -> bool
        ensures { result ≡ all_placed self.now.n self.now.faulty places.now }
    {
        (0..self.n).all(|host| {
            has_host(self.faulty, host) || matches!(places.get(usize::from(host)), Some(Some(_)))
        })
    }

    // The first fault that applies to the setup, or the places of the honest inputs.
    // What faulty hosts put in is not looked at, and no honest input has a second place.
    pub fn judge(&self) -> Result<InputPlaces, Refusal>
        ensures answer { result ≡ judged C.Candidate.equal self.now.n self.now.t self.now.faulty self.now.candidates.now self.now.inputs.now (R.Rota.schedule self.now.rota.now) }
        ensures number { number_in result ≡ setup_number C.Candidate.equal self.now.n self.now.t self.now.faulty self.now.candidates.now self.now.inputs.now (R.Rota.schedule self.now.rota.now) }
        ensures placed { IfOk result (λ p. Placed C.Candidate.equal self.now.n self.now.faulty self.now.candidates.now self.now.inputs.now p.places) }
    {
        if !is_host_count(self.n) {
            return Err(Refusal::HostCount);
        }
        if u16::from(self.n) < 3 * u16::from(self.t) + 1 {
            return Err(Refusal::FaultBound);
        }
        if !self.has_fault_set() {
            return Err(Refusal::FaultSet);
        }
        let candidates = Candidates::new(self.candidates).ok_or(Refusal::CandidateCount)?;
        if !candidates.are_distinct() {
            return Err(Refusal::EqualCandidates);
        }
        if self.inputs.len() != usize::from(self.n) {
            return Err(Refusal::InputCount);
        }
        let places = self.places(&candidates);
        if !self.are_placed(&places) {
            return Err(Refusal::StrayInput);
        }
        if self.rota.host_count() != self.n {
            return Err(Refusal::RotaHosts);
        }
        Ok(InputPlaces { places })
    }
}

// A theorem, for every kind of candidate: setups that differ only in what faulty hosts put in are judged alike.
pub fn faulty_inputs_are_unseen<C: Candidate>()
    ensures { Unseen C.Candidate.equal }
{}
