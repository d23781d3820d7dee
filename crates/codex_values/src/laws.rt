//! Laws of values, each a function with an empty body whose contract is the law.

ghost use Rattle.std.specs.Prelude.{◌≡◌, ◌<◌, ◌↔◌, ℕ, List, length};
ghost use Rattle.codex_values.specs.Value.{Value, show};
ghost use Rattle.codex_values.specs.Reading.{Reads};
ghost use Rattle.codex_values.specs.Store.{value_at, IsStore};
ghost use Rattle.codex_values.specs.declared.shape.Shape.{Shape};

/// A value's printing reads as that value and as no other.
pub fn a_printing_reads_as_its_value()
    ensures reads { (v : Value) → Reads (show v) v }
    ensures alone { (v w : Value) → Reads (show v) w → w ≡ v }
{}

/// A text reads as at most one value.
pub fn a_text_reads_as_one_value()
    ensures { (text : List ℕ) (v w : Value) → Reads text v → Reads text w → v ≡ w }
{}

/// Two places of a store stand for equal values exactly where they are the same place. Each
/// `ValueStore` is such a store.
pub fn a_value_has_one_place()
    ensures { (nodes : List Shape) (a b : ℕ) → IsStore nodes → a < length nodes → b < length nodes →
        (value_at nodes a ≡ value_at nodes b) ↔ (a ≡ b) }
{}
