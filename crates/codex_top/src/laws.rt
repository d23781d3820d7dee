//! Laws of the program: what is said of all calls of `codex`, by their words and statuses.

ghost use Rattle.std.specs.Prelude.{◌≡◌, ◌⊎◌, ℕ, List, Ok};
ghost use Rattle.umix_base.specs.Causes.{Rose};
ghost use Rattle.codex_top.specs.Calls.{Call, IsOfCodex, status_of_end};
ghost use Rattle.codex_top.specs.Commands.{JobEnds};
ghost use Rattle.codex_top.specs.Completeness.{Completeness};
ghost use Rattle.codex_top.specs.Drawn.{DoneIsDrawn};
ghost use Rattle.codex_top.specs.Endings.{End, IsTold};
ghost use Rattle.codex_top.specs.Headline.{Headline};
ghost use Rattle.codex_top.specs.Outside.{Stream};
ghost use Rattle.codex_top.specs.SavedRuns.{SavedRuns};
ghost use Rattle.codex_top.specs.Typed.{DoneIsTyped};
ghost use Rattle.codex_top.specs.Words.{Asks, Job};
ghost use Rattle.codex_top.specs.declared.end.Finish.TheVariants as finish;
ghost use Rattle.codex_top.specs.declared.status.Status.{Status};
ghost use Rattle.codex_top.specs.declared.status.Status.TheVariants as status;

/// For every grid that is accepted, in whatever order boxes fire and whichever legal identifiers
/// are handed out: the compiled scroll halts having written exactly the text of the grid's
/// meaning, when and only when `eval` gives that text, and else goes on silently, until a limit, a
/// budget, a fault of the outside or want of memory comes. See "Read the theorem" in
/// docs/PROOFS.md.
pub fn headline()
    ensures { Headline IsOfCodex }
{}

/// Where `draw` of an accepted grid is done, what it wrote is a grid of the same program: so its text,
/// each run of the evaluator and the words that realise it are the same.
pub fn what_is_drawn_is_the_program()
    ensures { DoneIsDrawn IsOfCodex }
{}

/// Where `type` of an accepted grid and a sheet is done, the grid's program is never stuck by the
/// shape of a value: in none of its states is a box, each value on a wire has the wire's type, and
/// the outcome is of main's result type or stuck by results.
pub fn what_is_typed_is_safe()
    ensures { DoneIsTyped IsOfCodex }
{}

/// Where no count of faults rises and the files are there, a command comes to its answer, or there
/// is no memory: each command, and `run` of what was compiled, within the limits and for cycles
/// enough.
pub fn completeness()
    ensures { Completeness IsOfCodex }
{}

/// After `save` was done, and where the file still tells what it wrote: `resume` is never refused,
/// and on the same input both calls are one run, told as one `run` of as many cycles tells it. See
/// "To go on" in docs/IMAGES.md.
pub fn saved_runs()
    ensures { SavedRuns IsOfCodex }
{}

/// A list of words asks for one job at most.
pub fn words_ask_one_job()
    ensures { (words : List (List ℕ)) (j k : Job) → Asks words j → Asks words k → j ≡ k }
{}

/// A status is that of its end, or its line couldn't be written. Only a command that is done has
/// status Done: the words of such a call ask for a job, and this was done.
pub fn done_is_done()
    ensures tells { (before now : Stream) (end : End) (s : Status) → IsTold before now end s
        → (s ≡ status_of_end end) ⊎ ((s ≡ status.WriteFault) × Rose before.faults now.faults) }
    ensures done { (before now : Stream) (end : End) → IsTold before now end status.Done
        → end ≡ Ok finish.Done }
    ensures calls { (c : Call) → IsOfCodex c → c.status ≡ status.Done
        → (job : Job) × Asks c.words job × JobEnds job c.before c.now (Ok finish.Done) }
{}
