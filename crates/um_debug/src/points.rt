//! Where runs are to stop: breakpoints, and watches on words.

ghost use Rattle.std.specs.Prelude.{◌≡◌, ◌≤◌, ◌<◌, ◌==◌, [], length, OnErr, IfOk, MatchBool};
ghost use Rattle.um_word.specs.State.{Arrays};
ghost use Rattle.um_debug.specs.Course.{no_points, seen_at};
ghost use Rattle.um_debug.specs.Session.{toggled, is_place, most_breakpoints, most_watches};
ghost use Rattle.um_debug.specs.inner.Calls.{AreWords, Changes};
ghost use Rattle.um_debug.specs.inner.Toggling.{Became};

use crate::command::WordPlace;
use crate::course::Came;
use std::alloc::Global;
use std::marker::Model;
use um_machine::Machine;
use umix_base::Memory;

/// The most breakpoints.
const MOST_BREAKPOINTS: usize = 64;

/// The most watches.
const MOST_WATCHES: usize = 16;

/// Breakpoints and watches, in the order in which they were set.
#[derive(Drop)]
pub(crate) struct Points {
    breakpoints: Vec<u32>,
    watches: Vec<WordPlace>,
}

impl Model for Points {
    ghost use Rattle.std.specs.Prelude.{◌≤◌, length};
    ghost use Rattle.um_debug.specs.Course as course;
    ghost use Rattle.um_debug.specs.Session.{most_watches};

    ghost Value = { course.Points };

    ghost view = { λ p. record { breakpoints = p.breakpoints.items; watches = p.watches.items } };

    ghost invariant = { λ p. length p.watches.items ≤ most_watches };
}

/// What became of a breakpoint or a watch.
#[derive(Clone, Copy, PartialEq, Eq, Debug)]
pub(crate) enum Toggle {
    /// It was set.
    On,
    /// It was removed.
    Off,
    /// It isn't set, and there is no place for it.
    Full,
}

/// The words of the watches, in their order; `None` also behind them.
pub(crate) type Watched = [Option<u32>; MOST_WATCHES];

impl Points {
    /// None is set.
    pub(crate) fn new(alloc: Global) -> Points
        ensures { result ≡ no_points }
    {
        Points {
            breakpoints: Vec::new(alloc),
            watches: Vec::new(alloc),
        }
    }

    /// Whether none is set.
    pub(crate) fn is_empty(&self) -> bool
        ensures { MatchBool result (self.now ≡ no_points) (Unit {0}) }
    {
        self.breakpoints.is_empty() && self.watches.is_empty()
    }

    /// Sets or removes the breakpoint at an offset.
    pub(crate) fn toggle_breakpoint(&mut self, offset: u32) -> Result<Toggle, Memory>
        ensures ok { IfOk result (Changes
            (toggled (λ other. other == offset) most_breakpoints offset self.old.breakpoints)
            self.old (λ xs. record self.old { breakpoints = xs }) self.new) }
        ensures err { OnErr result (self.new ≡ self.old) }
    {
        change(&mut self.breakpoints, offset, MOST_BREAKPOINTS)
    }

    /// Sets or removes the watch on a word.
    pub(crate) fn toggle_watch(&mut self, place: WordPlace) -> Result<Toggle, Memory>
        ensures ok { IfOk result (Changes
            (toggled (is_place place) most_watches place self.old.watches) self.old
            (λ xs. record self.old { watches = xs }) self.new) }
        ensures err { OnErr result (self.new ≡ self.old) }
    {
        change(&mut self.watches, place, MOST_WATCHES)
    }

    /// The words of the watches. Takes no memory.
    pub(crate) fn words(&self, machine: &Machine) -> Watched
        ensures { AreWords machine.now.arrays self.now.watches result }
    {
        let mut words = [None; MOST_WATCHES];
        for k in 0..self.watches.len() {
            let place = self.watches[k];
            words[k] = machine.word(place.id, place.offset);
        }
        words
    }

    /// The first change of a watched word, and else the breakpoint at the finger. Takes no memory.
    pub(crate) fn look(&self, machine: &Machine, words: &Watched) -> Option<Came>
        ensures { (before : Arrays) → AreWords before self.now.watches words.now →
            result ≡ seen_at self.now before machine.now.arrays machine.now.finger }
    {
        for k in 0..self.watches.len() {
            let place = self.watches[k];
            let word = machine.word(place.id, place.offset);
            if word != words[k] {
                return Some(Came::Watched(place, words[k], word));
            }
        }
        let finger = machine.finger();
        if self.breakpoints.contains(&finger) {
            return Some(Came::Broke(finger));
        }
        None
    }
}

// takes a thing out of a list, or puts it at its end
fn change<T: Copy + PartialEq + Drop>(
    list: &mut Vec<T>,
    thing: T,
    most: usize,
) -> Result<Toggle, Memory>
    ensures ok { IfOk result (Became (toggled (λ other. T.eq other thing) most thing list.old.items)
        list.old.items list.new.items) }
    ensures err { OnErr result (list.new.items ≡ list.old.items) }
{
    if list.contains(&thing) {
        list.retain(|other| *other != thing);
        return Ok(Toggle::Off);
    }
    if list.len() >= most {
        return Ok(Toggle::Full);
    }
    list.push(thing)?;
    Ok(Toggle::On)
}
