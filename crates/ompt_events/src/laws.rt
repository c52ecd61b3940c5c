//! Laws that follow from the definitions of causes and moves alone. The functions do nothing: their
//! contracts are the laws.
ghost use Rattle.std.specs.Prelude.{◌≡◌, ◌==◌, ◌↔◌, ◌⊎◌, ◌<◌, ℕ, List, length, filter};
ghost use Rattle.ompt_events.specs.declared.records.Record.{Record};
ghost use Rattle.ompt_events.specs.HappensBefore.{HappensBefore};
ghost use Rattle.ompt_events.specs.Causes.{HasNoOrder};
ghost use Rattle.ompt_events.specs.States.{Move, moves_at, moves_of};

/// A record has no order exactly where it happens before itself, or after a record that does.
pub fn no_order_is_a_circle()
    ensures { (records : List Record) (i : ℕ) → i < length records
        → HasNoOrder records i
        ↔ ((a : ℕ) × HappensBefore records a a × ((a ≡ i) ⊎ HappensBefore records a i)) }
{}

/// A task's moves at a place are those that the record there makes, each as often as it makes it, and in
/// its order.
pub fn moves_are_those_of_records()
    ensures { (records : List Record) (task i : ℕ)
        → filter (λ (step : ℕ × Move). step.0 == i) (moves_of records task) ≡ moves_at records task i }
{}
