//! Laws of the machine's runs.
ghost use Rattle.um_machine.specs.WholeRuns.{RunsJoin, StoppedRunsStay, RunsAreAlone, StartsAtTheStart};

/// A run of `n` cycles and then of `k` is a run of `n + k`, over any source and any sink: where the first
/// made all its cycles it goes on, and where it stopped otherwise it would have stopped in the same way.
pub fn runs_join()
    ensures on { RunsJoin }
    ensures stopped { StoppedRunsStay }
{}

/// What was written before a run has no part in it: it is a run from a state in which nothing was written,
/// and what it wrote went out behind. So after `Machine::new` it is the run of the words from their start.
pub fn runs_are_alone()
    ensures alone { RunsAreAlone }
    ensures start { StartsAtTheStart }
{}
