//! Laws of events, each a function with an empty body whose contract is the law.

ghost use Rattle.std.specs.Prelude.{◌≡◌, ℕ, ◌+◌, ◌<◌, ◌≤◌, List, Some, true, false, length};
ghost use Rattle.codex_values.specs.Value.{Value};
ghost use Rattle.two_d.specs.Meaning.{Meaning, Outcome, look_of, mean};
ghost use Rattle.two_d.specs.Programs.{Program};
ghost use Rattle.two_d.specs.Steps.{Choice, Event, Table, EachReady, HasMeaning, HasNoOutcome};
ghost use Rattle.two_d.specs.Steps.{IsStateOf, after, events_of, instance_at, is_live};
ghost use Rattle.two_d.specs.Steps.{is_ready, start, step, wires};
ghost use Rattle.two_d.specs.declared.module.Origin.{Origin};
ghost use Rattle.fire_core.specs.Events.{AreAsCounted};

/// In whatever order ready events are made: where instance 0 has ended, its outcome is the program's,
/// with its firings and instances; where it hasn't, an event is ready, and fewer were made than that.
pub fn every_order_agrees()
    ensures outcome { (P : Program) (T : Table) (o : Outcome) → IsStateOf P T → (instance_at T 0).outcome ≡ Some o
        → (r : Meaning) × HasMeaning P r × (r.outcome ≡ o) }
    ensures counts { (P : Program) (r : Meaning) (events : List Event) → HasMeaning P r → EachReady P (start P) events
        → is_live (instance_at (after P (start P) events) 0) ≡ false
        → AreAsCounted P r events }
    ensures shorter { (P : Program) (r : Meaning) (events : List Event) → HasMeaning P r → EachReady P (start P) events
        → is_live (instance_at (after P (start P) events) 0) ≡ true → length events < r.firings + r.instances }
    ensures no_longer { (P : Program) (r : Meaning) (events : List Event) → HasMeaning P r →
        EachReady P (start P) events
        → length events ≤ r.firings + r.instances }
    ensures no_outcome { (P : Program) (T : Table) → HasNoOutcome P → IsStateOf P T → is_live (instance_at T 0) ≡ true }
    ensures goes_on { (P : Program) (T : Table) → IsStateOf P T → is_live (instance_at T 0) ≡ true
        → (e : Event) × (is_ready P T e ≡ true) }
{}

/// The first table is a state, and a ready event leads from a state to a state. Events by picks are ready
/// in their turn.
pub fn states_follow()
    ensures first { (P : Program) → IsStateOf P (start P) }
    ensures next { (P : Program) (T : Table) (e : Event) → IsStateOf P T → is_ready P T e ≡ true →
        IsStateOf P (step P T e) }
    ensures picked { (P : Program) (picks : Choice) (k : ℕ) → EachReady P (start P) (events_of P picks k) }
{}

/// Each value on a wire, in a state, is the one that is pulled from there, where modules mean what they do
/// at some depth.
pub fn wires_carry_pulled_values()
    ensures { (P : Program) (T : Table) → IsStateOf P T → (n : ℕ) ×
        ((i : ℕ) (o : Origin) (v : Value) → wires (instance_at T i) o ≡ Some v
        → look_of P (mean P n) (instance_at T i).kind (instance_at T i).inputs o ≡ Some v) }
{}
