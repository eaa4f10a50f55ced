//! Counts of faults.

ghost use Rattle.std.specs.Prelude.{◌≡◌, ◌≤◌};
ghost use Rattle.dita_outside.specs.Cause as spec;

/// The count with one fault more. It stands still at 2^64 - 1, the last value of a counter.
pub fn with_fault(count: u64) -> u64
    ensures value { result ≡ spec.count_after count }
    ensures later { count ≤ result }
    ensures rose { spec.Rose count result }
{
    count.saturating_add(1)
}
