ghost use Rattle.std.specs.Prelude.{◌≡◌, ◌<◌, ◌≤◌, ◌==◌, ◌+◌, ◌-◌, ℕ, [], length, true, OnOk, IfSome, slice_set};
ghost use Rattle.mark_list.specs.Marks.{count_before, is_marked};

use crate::numbers::{
    count_between, count_mark, find_sum, lengthen, lengthen_marks, mark_after, next_count,
    none_between, sum_between,
};
use std::alloc::Global;
use std::marker::Model;
use umix_base::Memory;

/// A list of marks, each set or not, that grows at its end. `count` takes constant time; `before` and `place`
/// look at no more than 16 numbers on each of five levels, and at one for 1,048,576 of the places, and `place`
/// at one mark where that alone is set and changed last; `put` writes one number on each level.
#[derive(Drop)]
pub struct Marks {
    marks: Vec<bool>,
    /// How many are set of each 16 marks.
    blocks: Vec<usize>,
    /// The sum of each 16 blocks.
    pages: Vec<usize>,
    /// The sum of each 16 pages.
    books: Vec<usize>,
    /// The sum of each 16 books.
    shelves: Vec<usize>,
    /// The sum of each 16 shelves.
    rooms: Vec<usize>,
    /// How many are set in all.
    count: usize,
    /// The place of the mark that changed last.
    last: usize,
}

impl Model for Marks {
    ghost use Rattle.std.specs.Prelude.{List, Bool};
    ghost use Rattle.mark_list.specs.inner.Sums.{AreSummed};

    ghost Value = { List Bool };

    ghost view = { λ marks. marks.marks.items };

    ghost invariant = { λ m. AreSummed m.marks.items m.blocks.items m.pages.items m.books.items
        m.shelves.items m.rooms.items m.count };
}

impl Marks {
    /// No marks.
    pub fn new(alloc: Global) -> Marks
        ensures { result ≡ [] }
    {
        Marks {
            marks: Vec::new(alloc),
            blocks: Vec::new(alloc),
            pages: Vec::new(alloc),
            books: Vec::new(alloc),
            shelves: Vec::new(alloc),
            rooms: Vec::new(alloc),
            count: 0,
            last: 0,
        }
    }

    /// Makes the list at least so long, and at most 16 longer than that. What is new isn't set. After `Memory`
    /// the list may be longer, and no mark is another. Constant time where it is so long.
    pub fn lengthen(&mut self, size: usize) -> Result<(), Memory>
        ensures same { (i : ℕ) → is_marked self.new i ≡ is_marked self.old i }
        ensures longer { length self.old ≤ length self.new }
        ensures most { length self.new ≤ length self.old + (size + 16 - length self.old) }
        ensures ok { OnOk result (size ≤ length self.new) }
    {
        if size <= self.marks.len() {
            return Ok(());
        }
        if size > usize::MAX - 16 {
            return Err(Memory);
        }
        let blocks = size / 16 + 1;
        let pages = blocks / 16 + 1;
        let books = pages / 16 + 1;
        let shelves = books / 16 + 1;
        let rooms = shelves / 16 + 1;
        lengthen(&mut self.rooms, rooms)?;
        lengthen(&mut self.shelves, shelves)?;
        lengthen(&mut self.books, books)?;
        lengthen(&mut self.pages, pages)?;
        lengthen(&mut self.blocks, blocks)?;
        lengthen_marks(&mut self.marks, 16 * blocks)?;
        Ok(())
    }

    /// How many marks there are, set or not.
    pub fn len(&self) -> usize
        ensures { result ≡ length self.now }
    {
        self.marks.len()
    }

    /// How many marks are set. Constant time.
    pub fn count(&self) -> usize
        ensures { result ≡ count_before self.now (length self.now) }
    {
        self.count
    }

    /// How many marks are set before a place.
    pub fn before(&self, place: usize) -> usize
        requires { place ≤ length self.now }
        ensures { result ≡ count_before self.now place }
    {
        let block = place / 16;
        let page = block / 16;
        let book = page / 16;
        let shelf = book / 16;
        let room = shelf / 16;
        sum_between(&self.rooms, 0, room)
            + sum_between(&self.shelves, 16 * room, shelf)
            + sum_between(&self.books, 16 * shelf, book)
            + sum_between(&self.pages, 16 * book, page)
            + sum_between(&self.blocks, 16 * page, block)
            + count_between(&self.marks, 16 * block, place)
    }

    /// Whether no mark is set from one place to before another. Of 256 marks and fewer it looks at each, up to
    /// the first that is set; of more it takes `before` twice.
    pub fn is_clear(&self, from: usize, to: usize) -> bool
        requires order { from ≤ to }
        requires there { to ≤ length self.now }
        ensures { result ≡ (count_before self.now from == count_before self.now to) }
    {
        if to - from <= 256 {
            none_between(&self.marks, from, to)
        } else {
            self.before(from) == self.before(to)
        }
    }

    /// The place of the mark that comes after `k` that are set: the k-th, counted from 0. Constant time where one
    /// mark alone is set, and none has changed since it was.
    pub fn place(&self, k: usize) -> usize
        requires { k < count_before self.now (length self.now) }
        ensures set { is_marked self.now result ≡ true }
        ensures there { result < length self.now }
        ensures is { count_before self.now result ≡ k }
    {
        match self.only() {
            Some(place) => place,
            None => self.search(k),
        }
    }

    /// The place of the mark that changed last, where it is set and no other is.
    fn only(&self) -> Option<usize>
        ensures one { IfSome result (λ _. count_before self.now (length self.now) ≡ 1) }
        ensures set { IfSome result (λ place. is_marked self.now place ≡ true) }
        ensures there { IfSome result (λ place. place < length self.now) }
    {
        if self.count == 1 && self.last < self.marks.len() && self.marks[self.last] {
            Some(self.last)
        } else {
            None
        }
    }

    /// The k-th mark that is set, by the sums.
    fn search(&self, k: usize) -> usize
        requires { k < count_before self.now (length self.now) }
        ensures set { is_marked self.now result ≡ true }
        ensures there { result < length self.now }
        ensures is { count_before self.now result ≡ k }
    {
        let (room, left) = find_sum(&self.rooms, 0, k);
        let (shelf, left) = find_sum(&self.shelves, 16 * room, left);
        let (book, left) = find_sum(&self.books, 16 * shelf, left);
        let (page, left) = find_sum(&self.pages, 16 * book, left);
        let (block, left) = find_sum(&self.blocks, 16 * page, left);
        mark_after(&self.marks, 16 * block, left)
    }

    /// Sets a mark, or takes it away.
    pub fn put(&mut self, place: usize, set: bool)
        requires { place < length self.old }
        ensures { self.new ≡ slice_set self.old place set }
    {
        if self.marks[place] == set {
            return;
        }
        let block = place / 16;
        let page = block / 16;
        let book = page / 16;
        let shelf = book / 16;
        let room = shelf / 16;
        count_mark(&mut self.blocks, block, set);
        count_mark(&mut self.pages, page, set);
        count_mark(&mut self.books, book, set);
        count_mark(&mut self.shelves, shelf, set);
        count_mark(&mut self.rooms, room, set);
        self.count = next_count(self.count, set);
        self.marks[place] = set;
        self.last = place;
    }
}
