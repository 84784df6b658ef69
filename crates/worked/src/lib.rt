// The definitions at work on small examples.
#![tactic(auto)]

ghost use Rattle.worked.specs.Values.{WorkedValues};

// A theorem: every definition comes to the value that was worked out by hand.
#[tactic(auto, unfolding(sets::specs::Sets::has, sets::specs::Sets::sum_below, sets::specs::Sets::all_below, sets::specs::Sets::any_below, sets::specs::Sets::lowest, sets::specs::Sets::per_host, keeper::specs::Keeping::held_count))]
pub fn worked_values_stand()
    ensures { WorkedValues }
{}
