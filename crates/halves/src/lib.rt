// The search by halves: the middle of what is left. The law of the search is in proofs/Halves.antt.
#![tactic(auto)]

ghost use Rattle.std.specs.Prelude.{◌+◌, ◌-◌, ◌/◌, ◌≤◌, ◌<◌};

// The middle of what is left to a search by halves: at most half of it lies before, and at most half behind.
pub fn middle(low: u32, high: u32) -> u32
    requires { low < high }
    ensures { (low ≤ result) × (result < high) × (result - low ≤ (high - low) / 2) × (high - (result + 1) ≤ (high - low) / 2) }
{
    low + (high - low) / 2
}
