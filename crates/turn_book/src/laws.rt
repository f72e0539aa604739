//! What holds of every site.

ghost use Rattle.std.specs.Prelude.{ℕ, ◌+◌, ◌-◌, ◌^◌, ◌<◌, ◌≤◌};
ghost use Rattle.turn_book.specs.Seats.{Seated, Halves};

/// After n splits of a site, in whatever order its seats are split, each seat has at least 2 to the power 63 - n numbers. So the first 63 splits
/// find more than one.
pub fn splits_leave_enough()
    ensures { (n : ℕ) (s t u : Seated) → n < 63 → 2 ^ (63 - n) ≤ s.high - s.low → Halves s t u → (2 ^ (63 - (n + 1)) ≤ t.high - t.low) × (2 ^ (63 - (n + 1)) ≤ u.high - u.low) }
{}
