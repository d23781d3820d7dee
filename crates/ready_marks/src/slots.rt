ghost use Rattle.std.specs.Prelude.{◌≡◌, ◌<◌, ◌≤◌, ◌+◌, ◌^◌, ℕ, [], ◌∷◌, not, Some, length};
ghost use Rattle.std.specs.Prelude.{slice_get, slice_set, IfOk, OnOk};
ghost use Rattle.mark_list.specs.Marks.{at, is_marked};
ghost use Rattle.two_d.specs.Meaning.{all_below};
ghost use Rattle.two_d.specs.Programs.{Program};
ghost use Rattle.two_d.specs.Steps.{Table, ready};
ghost use Rattle.ready_marks.specs.Slots.{AreReady, mark_at, spot_event};

use mark_list::Marks;
use std::alloc::Global;
use std::marker::Model;
use umix_base::Memory;

/// Where the marks of each instance begin, and those of the next one will, and the marks.
#[derive(Drop)]
pub struct Slots {
    starts: Vec<usize>,
    marks: Marks,
}

impl Model for Slots {
    ghost use Rattle.ready_marks.specs.Slots.{SlotsView, slots_view};

    ghost Value = { SlotsView };

    ghost view = { λ slots. slots_view slots.starts.items slots.marks };
}

impl Slots {
    /// Those of no instances.
    pub fn new(alloc: Global) -> Result<Slots, Memory>
        ensures starts { IfOk result (λ slots. slots.starts ≡ 0 ∷ []) }
        ensures marks { IfOk result (λ slots. slots.marks ≡ []) }
    {
        Ok(Slots {
            starts: vec![in alloc; 0]?,
            marks: Marks::new(alloc),
        })
    }

    /// How many events are ready. Constant time.
    pub fn len(&self) -> usize
        ensures { (P : Program) (T : Table) → AreReady P T self.now → result ≡ length (ready P T) }
    {
        self.marks.count()
    }

    /// The ready event at a place of their list, of so many instances: its instance, and its box or no
    /// box for an end. Time by the logarithm of how far the instance is from the last, beside `place` of the marks.
    pub fn event(&self, instances: usize, k: usize) -> (usize, Option<usize>)
        requires { (P : Program) × (T : Table) × AreReady P T self.now × (length T ≡ instances) ×
            (k < length (ready P T)) }
        ensures { (P : Program) (T : Table) → AreReady P T self.now → length T ≡ instances →
            k < length (ready P T) → slice_get (ready P T) k ≡ Some (spot_event result) }
    {
        let place = self.marks.place(k);
        let number = self.instance_of(place, instances);
        if place == self.starts[number + 1] - 1 {
            (number, None)
        } else {
            (number, Some(place - self.starts[number]))
        }
    }

    /// The instance whose marks a place is among.
    fn instance_of(&self, place: usize, instances: usize) -> usize
        requires there { instances < length self.now.starts }
        requires some { 0 < instances }
        requires low { at self.now.starts 0 ≤ place }
        requires high { place < at self.now.starts instances }
        ensures there { result < instances }
        ensures low { at self.now.starts result ≤ place }
        ensures high { place < at self.now.starts (result + 1) }
    {
        let (first, last) = self.near(place, instances);
        let mut low = first;
        let mut high = last;
        while low + 1 < high {
            let middle = low + (high - low) / 2;
            if self.starts[middle] <= place {
                low = middle;
            } else {
                high = middle;
            }
        }
        low
    }

    /// Two instances, the place among the marks of the first or behind them and before those of the second. It
    /// looks from the last instance back, by twice as many each time, since it is mostly a late one.
    fn near(&self, place: usize, instances: usize) -> (usize, usize)
        requires there { instances < length self.now.starts }
        requires some { 0 < instances }
        requires low { at self.now.starts 0 ≤ place }
        requires high { place < at self.now.starts instances }
        ensures order { result.0 < result.1 }
        ensures there { result.1 ≤ instances }
        ensures low { at self.now.starts result.0 ≤ place }
        ensures high { place < at self.now.starts result.1 }
    {
        let mut low = instances - 1;
        let mut high = instances;
        while low > 0 {
            if self.starts[low] <= place {
                return (low, high);
            }
            high = low;
            low = low.saturating_sub(instances - low);
        }
        (0, high)
    }

    /// Makes room for the marks of one more instance with so many boxes. What stands stays.
    pub fn reserve(&mut self, instances: usize, boxes: usize) -> Result<(), Memory>
        requires there { instances < length self.old.starts }
        requires few { boxes < 2 ^ 32 }
        requires instances { instances < 2 ^ 63 }
        ensures starts { (i : ℕ) → i < length self.old.starts → at self.new.starts i ≡ at self.old.starts i }
        ensures longer { length self.old.starts ≤ length self.new.starts }
        ensures marks { (s : ℕ) → is_marked self.new.marks s ≡ is_marked self.old.marks s }
        ensures reach { length self.old.marks ≤ length self.new.marks }
        ensures ok { OnOk result ((instances + 1 < length self.new.starts) ×
            (at self.new.starts instances + boxes + 1 ≤ length self.new.marks)) }
    {
        if self.starts.len() < instances + 2 {
            self.starts.push(0)?;
        }
        let Some(size) = self.starts[instances].checked_add(boxes + 1) else {
            return Err(Memory);
        };
        self.marks.lengthen(size)
    }

    /// The marks of the next instance begin behind those of this one.
    pub fn begin(&mut self, number: usize, boxes: usize)
        requires there { number + 1 < length self.old.starts }
        requires within { at self.old.starts number + boxes + 1 ≤ length self.old.marks }
        ensures starts { self.new.starts
            ≡ slice_set self.old.starts (number + 1) (at self.old.starts number + boxes + 1) }
        ensures marks { self.new.marks ≡ self.old.marks }
    {
        let _size = self.marks.len();
        self.starts[number + 1] = self.starts[number] + boxes + 1;
    }

    /// Whether the event of a mark is ready: a box of an instance, or its end behind all boxes.
    pub fn put(&mut self, number: usize, b: usize, ready: bool)
        requires there { number < length self.old.starts }
        requires within { at self.old.starts number + b < length self.old.marks }
        ensures starts { self.new.starts ≡ self.old.starts }
        ensures marks { self.new.marks ≡ slice_set self.old.marks (at self.old.starts number + b) ready }
    {
        let _size = self.marks.len();
        self.marks.put(self.starts[number] + b, ready);
    }

    /// None of the first marks of an instance is set, those of its boxes. Of 256 boxes and fewer it looks at each
    /// mark, up to the first that is set.
    pub fn is_quiet(&self, number: usize, boxes: usize) -> bool
        requires there { number < length self.now.starts }
        requires within { at self.now.starts number + boxes ≤ length self.now.marks }
        ensures { result ≡ all_below boxes (λ b. not (mark_at self.now number b)) }
    {
        let _size = self.marks.len();
        let first = self.starts[number];
        self.marks.is_clear(first, first + boxes)
    }
}
