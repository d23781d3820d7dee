ghost use Rattle.std.specs.Prelude.{◌≡◌, ◌<◌, ◌↔◌, List, length, IsTrue, IfSome, slice_get};
ghost use Rattle.std.specs.Option.{option_and_then};
ghost use Rattle.two_d.specs.Steps.{Event, pick};
ghost use Rattle.fire_eval.specs.Evaluation.{choice_of, HasPicks};

/// Which of the ready events comes next.
#[derive(Debug, Drop)]
pub enum Picks {
    /// The first.
    First,
    /// The last.
    Last,
    /// For the event number k, counted from 0, the one at position `list[k mod length] mod number of ready events`.
    List(Vec<u32>),
}

impl Picks {
    /// A list isn't empty.
    pub(crate) fn serves(&self) -> bool
        ensures { IsTrue result ↔ HasPicks self.now }
    {
        match self {
            Picks::First => true,
            Picks::Last => true,
            Picks::List(numbers) => !numbers.is_empty(),
        }
    }
}

/// The place of the event that comes next among so many that are ready, if any is.
pub(crate) fn place(picks: &Picks, made: u64, count: usize) -> Option<usize>
    requires { HasPicks picks.now }
    ensures picked { (events : List Event) → length events ≡ count
        → option_and_then (slice_get events) result ≡ pick (choice_of picks.now) made events }
    ensures there { IfSome result (λ k. k < count) }
{
    if count == 0 {
        return None;
    }
    match picks {
        Picks::First => Some(0),
        Picks::Last => Some(count - 1),
        Picks::List(numbers) => {
            let number = numbers[made as usize % numbers.len()];
            Some(number as usize % count)
        }
    }
}
