// What every keeper has besides its map.
ghost use Rattle.std.specs.Prelude.{◌≡◌, ◌≤◌, true};
ghost use Rattle.sets.specs.Sets.{only_below, phases};

mod checks;

// The number of hosts, the set of those that are open, and the number of phases.
#[derive(Clone, Copy)]
pub struct Bounds {
    pub hosts: u8,
    pub opened: u16,
    pub horizon: u16,
    ghost few: { hosts ≤ 16 },
    ghost below: { only_below hosts opened ≡ true },
    ghost short: { horizon ≤ phases },
}
