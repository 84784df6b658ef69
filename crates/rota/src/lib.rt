// Rotas (leader schedules): which host owns (leads) which phase (view).
#![tactic(auto)]

ghost use Rattle.std.specs.Prelude.{◌≡◌, ◌≤◌};
ghost use Rattle.rota.specs.Schedule.{Schedule, Sound};
ghost use Rattle.rota.specs.Cycles.{turn_at, turn_by_turn};
ghost use Rattle.rota.specs.Repeating.{sound_turns};

use sets::{PHASES, is_host_count};

pub mod written;

// A rota, by the schedule that it means. No question alters it.
pub trait Rota {
    ghost schedule: { Self → Schedule };

    // How many hosts take part.
    fn host_count(&self) -> u8
        ensures { result ≡ (schedule self.now).hosts };

    // Every host owns some phase among any so many consecutive ones.
    fn window(&self) -> u8
        ensures { result ≡ (schedule self.now).window };

    // The owner of a phase.
    fn owner_of(&self, phase: u16) -> u8
        ensures { result ≡ (schedule self.now).owner phase };

    ghost sound: { (r : Self) → Sound (schedule r) };
}

// Which of so many turns comes up at a phase, where there are turns and phases.
fn turn_at(phase: u16, turns: u8) -> Option<u8>
    ensures { result ≡ turn_at phase turns }
{
    (turns > 0 && phase < PHASES).then(|| (phase % u16::from(turns)) as u8)
}

// Phase k belongs to host k mod the number of hosts. A rota that was made from a bad number has no hosts: making one cannot fail, and a council refuses it.
#[derive(Clone, Copy)]
pub struct TurnByTurn {
    hosts: u8,
    ghost few: { hosts ≤ 16 },
}

impl TurnByTurn {
    // The rota of n hosts, or of none where n is not 1 to 16.
    pub fn new(n: u8) -> TurnByTurn
        ensures { turn_by_turn result.hosts ≡ turn_by_turn n }
    {
        let hosts = if is_host_count(n) { n } else { 0 };
        TurnByTurn { hosts }
    }
}

impl Rota for TurnByTurn {
    ghost schedule = { λ r. turn_by_turn r.hosts };

    ghost sound = { λ r. sound_turns r.hosts };

    fn host_count(&self) -> u8 {
        self.hosts
    }

    fn window(&self) -> u8 {
        self.host_count()
    }

    fn owner_of(&self, phase: u16) -> u8 {
        turn_at(phase, self.hosts).unwrap_or(0)
    }
}
