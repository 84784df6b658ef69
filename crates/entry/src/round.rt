// The rounds of a phase, and which of them is awaited.
ghost use Rattle.std.specs.Prelude.{◌≡◌};
ghost use Rattle.entry.specs.Rounds.{most_bodies, round_code};

// The four rounds of a phase, in their order.
#[derive(Clone, Copy)]
pub enum Round {
    List = 0,
    Nomination = 1,
    Acknowledgement = 2,
    Release = 3,
}

impl Round {
    // The number of the round, less one, as a bag's head has it.
    pub fn code(&self) -> u8
        ensures { result ≡ round_code self.now }
    {
        *self as u8
    }

    // How many bodies a letter of the round can have.
    pub fn most_bodies(&self) -> u8
        ensures { result ≡ most_bodies self.now }
    {
        match self {
            Round::Release => 2,
            _ => 1,
        }
    }
}

// The bag that a council awaits.
#[derive(Clone, Copy)]
pub struct Awaited {
    pub phase: u16,
    pub round: Round,
}
