//! The rules of a script in plain words. The functions do nothing: their contracts are the laws.
ghost use Rattle.std.specs.Prelude.{◌≡◌, ◌↔◌, ℕ, List, Option, Some, true, slice_get, take};
ghost use Rattle.ompt_events.specs.declared.records.Body.{Body};
ghost use Rattle.scripts.specs.declared.script.Step.{Step};
ghost use Rattle.scripts.specs.Scripts.{may_follow, IsScript};
ghost use Rattle.scripts.specs.Rules.{MayFollow};

/// A call may follow a script exactly if it has no claim and no turns, its `after`, if it has one, names an
/// earlier step, it names no task twice, an earlier step made and none ended each task that it names and
/// does not make, and none made the one that it makes.
pub fn calls_follow_by_the_rules()
    ensures { (steps : List Step) (after : Option (ℕ × ℕ)) (body : Body) → IsScript steps
        → (may_follow steps after body ≡ true) ↔ MayFollow steps after body }
{}

/// Each step of a script may follow those before it.
pub fn steps_follow_by_the_rules()
    ensures { (steps : List Step) (i : ℕ) (s : Step) → IsScript steps → slice_get steps i ≡ Some s
        → MayFollow (take i steps) s.after s.body }
{}
