//! Modules and boxes that are looked for among those of a text.

ghost use Rattle.std.specs.Prelude.{◌≡◌, ◌<◌, ℕ, List, IfSome, MatchOption, length};
ghost use Rattle.two_d.specs.Program.{Drawn};
ghost use Rattle.two_d.specs.Programs.{find, modules_of};
ghost use Rattle.two_d.specs.Texts.{HasBox};
ghost use Rattle.module_table.specs.Drawn.{AreModulesRead};
ghost use Rattle.fault_view.specs.Subjects.{IsBoxAt, IsModuleAt};

use module_table::{Modules, box_corner, frame_corner};
use two_d::Module;
use umix_base::Place;

/// The module with this upper left corner.
pub(crate) fn find_module(drawn: &Modules, corner: Place) -> Option<usize>
    ensures found { (ds : List Drawn) → AreModulesRead drawn.now ds →
        MatchOption result ((i : ℕ) → IsModuleAt ds corner i → ⊥) (IsModuleAt ds corner) }
    ensures within { IfSome result (λ i. i < length drawn.now.modules.items) }
{
    for number in 0..drawn.modules.len() {
        if frame_corner(&drawn.corners, number) == corner {
            return Some(number);
        }
    }
    None
}

/// The box with this upper left corner, by the number of its module and its own.
pub(crate) fn find_box(drawn: &Modules, corner: Place) -> Option<(usize, usize)>
    ensures found { (ds : List Drawn) → AreModulesRead drawn.now ds →
        MatchOption result ((b : ℕ × ℕ) → IsBoxAt ds corner b → ⊥) (IsBoxAt ds corner) }
    ensures within { IfSome result (HasBox (modules_of drawn.now.modules.items)) }
{
    for number in 0..drawn.modules.len() {
        if let Some(bx) = find_in(drawn, number, corner) {
            return Some((number, bx));
        }
    }
    None
}

/// The box of a module with this upper left corner.
fn find_in(drawn: &Modules, number: usize, corner: Place) -> Option<usize>
    requires { number < length drawn.now.modules.items }
    ensures found { (ds : List Drawn) → AreModulesRead drawn.now ds →
        MatchOption result ((b : ℕ) → IsBoxAt ds corner (number, b) → ⊥)
        (λ b. IsBoxAt ds corner (number, b)) }
    ensures within { IfSome result (λ b. HasBox (modules_of drawn.now.modules.items) (number, b)) }
{
    for bx in 0..drawn.modules[number].boxes.len() {
        if box_corner(&drawn.corners, number, bx) == corner {
            return Some(bx);
        }
    }
    None
}

/// The number of the first module with this name, or how many modules there are.
pub(crate) fn first_named(modules: &[Module], name: &[u8]) -> usize
    ensures { result ≡ find (modules_of modules.now) name.now }
{
    for number in 0..modules.len() {
        if modules[number].name.bytes() == name {
            return number;
        }
    }
    modules.len()
}
