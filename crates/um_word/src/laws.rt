//! Laws of the machine's definitions.
ghost use Rattle.std.specs.Prelude.{◌≡◌};
ghost use Rattle.um_word.specs.Scroll.{most_scroll_words, most_scroll_bytes};
ghost use Rattle.um_word.specs.Run.{RunsCompose, first_of, ids_left};
ghost use Rattle.um_word.specs.Free.{FaultsAreOver, RunsAreLimited};
ghost use Rattle.um_word.specs.Rule.{next_identifier, identifiers_left, RulesAreLegal, RunsBeginOrderly};
ghost use Rattle.um_word.specs.EveryRun.{RefusalsAgree, LegalSplits, OutputsAreBehind, OutputsGrow};
ghost use Rattle.um_word.specs.EveryRun.{StartsAreFormed, CyclesKeepForm};

use crate::{MOST_SCROLL_BYTES, MOST_SCROLL_WORDS};

/// The constants are the limits that the definitions name.
pub fn scroll_limits()
    ensures words { MOST_SCROLL_WORDS ≡ most_scroll_words }
    ensures bytes { MOST_SCROLL_BYTES ≡ most_scroll_bytes }
{}

/// A run of `n + m` cycles is a run of `n` cycles that goes on for `m` more, with identifiers from a
/// list and with identifiers by the rule.
#[tactic(auto, using(crate::proofs::Runs::runs_compose))]
pub fn runs_compose()
    ensures listed { RunsCompose first_of ids_left }
    ensures ruled { RunsCompose next_identifier identifiers_left }
{}

/// Identifiers are legal for `n + m` cycles exactly where they are legal for `n`, and what those leave
/// of them is legal for `m` more.
#[tactic(auto, using(crate::proofs::Splits::legal_splits))]
pub fn legal_splits()
    ensures { LegalSplits }
{}

/// A cycle that is refused is refused for the same reason whatever identifier is offered.
#[tactic(auto, using(crate::proofs::Rules::refusals_agree))]
pub fn refusals_agree()
    ensures { RefusalsAgree }
{}

/// A run doesn't look at what was written before it, and writes behind it. So the output of `n` cycles is
/// a beginning of the output of more.
#[tactic(auto, using(crate::proofs::Outputs::outputs_are_behind, crate::proofs::Outputs::outputs_grow, crate::proofs::Outputs::list_is_blind, crate::proofs::Outputs::rule_is_blind,))]
pub fn outputs_grow()
    ensures listed { OutputsGrow first_of ids_left }
    ensures ruled { OutputsGrow next_identifier identifiers_left }
    ensures listed_behind { OutputsAreBehind first_of ids_left }
    ensures ruled_behind { OutputsAreBehind next_identifier identifiers_left }
{}

/// The run of words of 32 bits begins in a well formed state, and cycles keep it well formed.
pub fn states_are_formed()
    ensures start { StartsAreFormed }
    ensures cycle { CyclesKeepForm }
{}

/// Where the limit on arrays is below 2^32, the identifiers that the rule hands out are legal, and the
/// run by the rule is the run that is given them. So it is of the run of each scroll within the limits.
#[tactic(auto, using(crate::proofs::Rules::rules_are_legal))]
pub fn rules_are_legal()
    ensures legal { RulesAreLegal }
    ensures begins { RunsBeginOrderly }
{}

/// A run under limits is the run without limits, or it ends where that run first meets a limit.
#[tactic(auto, using(crate::proofs::Limited::runs_are_limited))]
pub fn runs_are_limited()
    ensures listed { RunsAreLimited first_of ids_left }
    ensures ruled { RunsAreLimited next_identifier identifiers_left }
{}

/// A run that fails at a limit fails with a number that is over it.
#[tactic(auto, using(crate::proofs::Over::faults_are_over))]
pub fn faults_are_over()
    ensures listed { FaultsAreOver first_of ids_left }
    ensures ruled { FaultsAreOver next_identifier identifiers_left }
{}
