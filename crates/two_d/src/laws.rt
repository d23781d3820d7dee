ghost use Rattle.std.specs.Prelude.{◌≡◌, ℕ, ◌+◌, ◌<◌, ◌≤◌, ◌^◌, ◌↔◌, List, [], length, All, Result, Ok, Some, None};
ghost use Rattle.two_d.specs.Good.{IsGood};
ghost use Rattle.two_d.specs.Table.{Wrong, table_of};
ghost use Rattle.two_d.specs.Boxes.{boxes_of};
ghost use Rattle.two_d.specs.Canonical.{canonical};
ghost use Rattle.two_d.specs.Cells.{Grid, grid_of};
ghost use Rattle.two_d.specs.Faults.{TextFault};
ghost use Rattle.two_d.specs.Clean.{WireForm, wires_of};
ghost use Rattle.two_d.specs.Frames.{IsFrame, frames_of, name_of};
ghost use Rattle.two_d.specs.Grammar.{IsTextOf};
ghost use Rattle.two_d.specs.Meaning.{Answers, Inputs, Meaning, Stuck, cells_from, look_in, look_of, mean, no_inputs};
ghost use Rattle.two_d.specs.Places.{Rect};
ghost use Rattle.two_d.specs.Ports.{Drawing};
ghost use Rattle.umix_base.specs.declared.place.Place.{Place};
ghost use Rattle.two_d.specs.Programs.{ModuleForm, Program, main_of, module_at};
ghost use Rattle.two_d.specs.Sound.{IsKeptOrder, IsOrder, IsSound, Reaches};
ghost use Rattle.two_d.specs.Steps.{HasMeaning};
ghost use Rattle.two_d.specs.Texts.{IsOutcomeOf, IsProgramText};
ghost use Rattle.two_d.specs.Trails.{Trail};
ghost use Rattle.two_d.specs.Trees.{Form, IsWithin};
ghost use Rattle.two_d.specs.Walks.{AreKeptOrders, AreOrders, IsPrefixOf, route};

/// A text is of at most one command.
pub fn one_command()
    ensures { (text : List ℕ) (c d : Form) → IsTextOf text c → IsTextOf text d → c ≡ d }
{}

/// The canonical text of a command that can be written is a text of it.
pub fn canonical_text()
    ensures { (c : Form) → IsWithin c → IsTextOf (canonical c) c }
{}

/// What a text can be of can be written.
pub fn written_within()
    ensures { (text : List ℕ) (c : Form) → IsTextOf text c → IsWithin c }
{}

/// A reading has exactly one answer: a text has one grid or one first fault, and so have the frames of a grid,
/// and the name and the boxes of a frame.
pub fn one_answer()
    ensures grid { (text : List ℕ) (r s : Result Grid TextFault) → grid_of text r → grid_of text s → r ≡ s }
    ensures frames { (grid : Grid) (r s : Result (List Rect) TextFault) → frames_of grid r → frames_of grid s → r ≡ s }
    ensures name { (grid : Grid) (f : Rect) (r s : Result (List ℕ) TextFault) → name_of grid f r →
        name_of grid f s → r ≡ s }
    ensures boxes { (grid : Grid) (f : Rect) (r s : Result (List Rect) TextFault) →
        boxes_of grid f r → boxes_of grid f s → r ≡ s }
    ensures some_grid { (text : List ℕ) → (r : Result Grid TextFault) × grid_of text r }
    ensures some_frames { (grid : Grid) → (r : Result (List Rect) TextFault) × frames_of grid r }
    ensures some_name { (grid : Grid) (f : Rect) → (r : Result (List ℕ) TextFault) × name_of grid f r }
    ensures some_boxes { (grid : Grid) (f : Rect) → (r : Result (List Rect) TextFault) × boxes_of grid f r }
{}

/// A drawing has its wires or a first fault of wires; where its frame is one and its boxes are those that were
/// read in it, it has one of these alone.
pub fn each_drawing_has_one_list_of_wires()
    ensures some { (m : Drawing) → (r : Result (List WireForm) TextFault) × wires_of m r }
    ensures one { (m : Drawing) (p : Place) (r s : Result (List WireForm) TextFault) →
        IsFrame m.grid p m.frame → boxes_of m.grid m.frame (Ok m.boxes)
        → wires_of m r → wires_of m s → r ≡ s }
{}

/// What a module means at some depth, it means at every greater depth.
pub fn depth_is_enough()
    ensures { (P : Program) (n d m : ℕ) (a : Inputs) (r : Meaning) → mean P n m a ≡ Some r →
        mean P (d + n) m a ≡ Some r }
{}

/// In a module whose boxes have an order, what comes from a box is what the box gives, by the values at
/// its own origins: looking through as many boxes as there are is far enough.
pub fn each_box_gives_by_its_origins()
    ensures { (P : Program) (answer : Answers) (m : ℕ) (a : Inputs) (order : List ℕ) → IsOrder (module_at P m) order
        → look_of P answer m a ≡ look_in a (cells_from P answer m (look_of P answer m a)) }
{}

/// Where a program means nothing at a depth, the route to that depth is at least as long as it is deep,
/// and each deeper route begins with it. Where it means something, each deeper route is the same.
pub fn routes_go_on()
    ensures long { (P : Program) (order blocks : ℕ → List ℕ) (printer : List ℕ) (n : ℕ) → AreOrders P order
        → mean P n (main_of P) no_inputs ≡ None → n ≤ length (route P order blocks printer n) }
    ensures begins { (P : Program) (order blocks : ℕ → List ℕ) (printer : List ℕ) (n d : ℕ) → AreOrders P order
        → mean P n (main_of P) no_inputs ≡ None →
        IsPrefixOf (route P order blocks printer n) (route P order blocks printer (d + n)) }
    ensures stays { (P : Program) (order blocks : ℕ → List ℕ) (printer : List ℕ) (n d : ℕ)
        (r : Meaning) → AreOrders P order
        → mean P n (main_of P) no_inputs ≡ Some r → route P order blocks printer (d + n)
        ≡ route P order blocks printer n }
{}

/// A sound module has a kept order where no box reaches itself, and only there. It never has two.
pub fn kept_order_of_a_module()
    ensures acyclic { (m : ModuleForm) → IsSound m →
        (((b : ℕ) → Reaches m b b → ⊥) ↔ ((order : List ℕ) × IsKeptOrder m order)) }
    ensures once { (m : ModuleForm) (xs ys : List ℕ) → IsKeptOrder m xs → IsKeptOrder m ys → xs ≡ ys }
{}

/// A good program has kept orders; where a number names no module, nothing is to be ordered. By these it has
/// one route to each depth: that of the program itself.
pub fn one_route()
    ensures some { (P : Program) → IsGood P → (order : ℕ → List ℕ) × AreKeptOrders P order }
    ensures past { (P : Program) (m : ℕ) → length P ≤ m → IsKeptOrder (module_at P m) [] }
    ensures valid { (P : Program) (order : ℕ → List ℕ) → AreKeptOrders P order → AreOrders P order }
    ensures same { (P : Program) (order other blocks : ℕ → List ℕ) (printer : List ℕ) (n : ℕ) →
        AreKeptOrders P order → AreKeptOrders P other
        → route P order blocks printer n ≡ route P other blocks printer n }
{}

/// A program has at most one meaning, and at most one text.
pub fn one_meaning()
    ensures meaning { (P : Program) (r s : Meaning) → HasMeaning P r → HasMeaning P s → r ≡ s }
    ensures text { (P : Program) (xs ys : List ℕ) → IsProgramText P xs → IsProgramText P ys → xs ≡ ys }
{}

/// The outcome of a good program is of it, as `text` asks: the modules and boxes of its trail are there.
pub fn outcome_of_program()
    ensures { (P : Program) (r : Meaning) → IsGood P → HasMeaning P r → IsOutcomeOf P r.outcome }
{}

/// A trail has fewer callers than its meaning takes instances.
pub fn callers_are_few()
    ensures { (P : Program) (n m : ℕ) (a : Inputs) (r : Meaning) (trail : Trail) → mean P n m a
        ≡ Some r → r.outcome ≡ Stuck trail
        → length trail.callers < r.instances }
{}

/// With a list of fewer than 2^32 sound modules nothing is wrong exactly where it is a good program. With any
/// list of modules nothing is wrong, or something is the first that is wrong, and it is one alone.
pub fn good_by_table()
    ensures good { (P : Program) → length P < 2 ^ 32 → All IsSound P → (table_of P (Ok P) ↔ IsGood P) }
    ensures some { (P : Program) → (r : Result Program Wrong) × table_of P r }
    ensures one { (P : Program) (r s : Result Program Wrong) → table_of P r → table_of P s → r ≡ s }
{}
