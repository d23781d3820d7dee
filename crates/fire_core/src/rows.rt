ghost use Rattle.std.specs.Prelude.{◌≡◌, ◌<◌, ◌+◌, [], ◌∷◌, ◌++◌, length, None, Some, OnOk, OnErr, slice_set};
ghost use Rattle.fire_core.specs.inner.Rows.{row_of, row_at};

use slab::Slab;
use std::alloc::Global;
use std::marker::Model;
use two_d::Outcome;
use umix_base::Memory;

/// What a box that has fired has come to: places of the values that it sent, and of its trail.
#[derive(Clone, Copy)]
pub(crate) struct Cell {
    pub(crate) south: Option<usize>,
    pub(crate) east: Option<usize>,
    pub(crate) stuck: Option<usize>,
}

/// An instance. The cell of a box is there once the box has fired.
#[derive(Drop)]
pub(crate) struct Row {
    pub(crate) kind: usize,
    pub(crate) parent: Option<(usize, usize)>,
    pub(crate) north: Option<usize>,
    pub(crate) west: Option<usize>,
    pub(crate) cells: Vec<Option<Cell>>,
    /// How many instances that it started haven't ended.
    pub(crate) inner: usize,
    pub(crate) outcome: Option<Outcome>,
}

/// Where the row of an instance stands: under a key of the slab, or in the list of ended rows.
#[derive(Clone, Copy)]
pub(crate) enum Place {
    Live(usize),
    Ended(usize),
}

/// The instances by number, in order of their start. The row of a live one stands in the slab.
#[derive(Drop)]
pub(crate) struct Rows {
    live: Slab<Row>,
    ended: Vec<Row>,
    places: Vec<Place>,
}

impl Model for Rows {
    ghost use Rattle.std.specs.Prelude.{List, vec_capacity};
    ghost use Rattle.fire_core.specs.inner.Rows.{RowForm};
    ghost use Rattle.fire_core.specs.inner.Places.{rows_at, AreHeld};

    ghost Value = { List RowForm };

    ghost view = { λ rows. rows_at rows.live.slots rows.ended.items rows.places.items };

    ghost invariant = { λ rows. AreHeld rows.live.slots rows.ended.items rows.places.items (vec_capacity rows.ended) };
}

impl Rows {
    pub(crate) fn new(alloc: Global) -> Rows
        ensures { result ≡ [] }
    {
        Rows {
            live: Slab::new(alloc),
            ended: Vec::new(alloc),
            places: Vec::new(alloc),
        }
    }

    pub(crate) fn allocator(&self) -> Global {
        *self.places.allocator()
    }

    pub(crate) fn len(&self) -> usize
        ensures { result ≡ length self.now }
    {
        self.places.len()
    }

    pub(crate) fn row(&self, number: usize) -> &Row
        requires { number < length self.now }
        ensures { row_of result.now ≡ row_at self.now number }
    {
        match self.places[number] {
            Place::Live(key) => &self.live[key],
            Place::Ended(at) => &self.ended[at],
        }
    }

    /// The row of the next number, with room for its end. After `Memory` there is none.
    pub(crate) fn push(&mut self, row: Row) -> Result<(), Memory>
        requires live { row.outcome ≡ None }
        ensures ok { OnOk result (self.new ≡ self.old ++ row_of row ∷ []) }
        ensures err { OnErr result (self.new ≡ self.old) }
    {
        self.places.reserve(1)?;
        self.live.reserve(1)?;
        self.ended
            .reserve(self.places.len() + 1 - self.ended.len())?;
        let key = self.live.insert_reserved(row);
        self.places.push_reserved(Place::Live(key));
        Ok(())
    }

    /// Box `bx` of an instance has come to something.
    pub(crate) fn mark(&mut self, number: usize, bx: usize, cell: Cell)
        requires there { number < length self.old }
        requires has { bx < length (row_at self.old number).cells }
        ensures { self.new ≡ slice_set self.old number (record (row_at self.old number) {
          cells = slice_set (row_at self.old number).cells bx (Some cell);
        }) }
    {
        match self.places[number] {
            Place::Live(key) => self.live[key].cells[bx] = Some(cell),
            Place::Ended(at) => self.ended[at].cells[bx] = Some(cell),
        }
    }

    /// An instance has so many inner ones that haven't ended.
    pub(crate) fn count(&mut self, number: usize, inner: usize)
        requires there { number < length self.old }
        ensures { self.new ≡ slice_set self.old number (record (row_at self.old number) { inner = inner }) }
    {
        match self.places[number] {
            Place::Live(key) => self.live[key].inner = inner,
            Place::Ended(at) => self.ended[at].inner = inner,
        }
    }

    /// An instance has ended: its row moves out of the slab, whole.
    pub(crate) fn close(&mut self, number: usize, outcome: Outcome)
        requires there { number < length self.old }
        ensures { self.new ≡ slice_set self.old number (record (row_at self.old number) { outcome = Some outcome }) }
    {
        match self.places[number] {
            Place::Live(key) => {
                let mut row = self.live.remove(key);
                row.outcome = Some(outcome);
                self.places[number] = Place::Ended(self.ended.len());
                self.ended.push_reserved(row);
            }
            Place::Ended(at) => self.ended[at].outcome = Some(outcome),
        }
    }
}
