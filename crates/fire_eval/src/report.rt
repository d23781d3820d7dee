ghost use Rattle.std.specs.Prelude.{◌≡◌};

use codex_values::ValueStore;
use fire_core::Event;
use two_d::{Outcome, TrailStore};
use umix_base::Memory;

/// What an evaluation has come to. The outcome's places are those of the two stores.
#[derive(Drop)]
pub struct Report {
    /// `None` where instance 0 hasn't ended within the budget.
    pub outcome: Option<Outcome>,
    pub events: u64,
    pub firings: u64,
    pub instances: u64,
    pub log: Vec<Event>,
    pub values: ValueStore,
    pub trails: TrailStore,
}

/// Why there is no report.
#[derive(Clone, Copy, PartialEq, Eq, Debug, Drop)]
pub enum EvalFault {
    /// The list of picks is empty.
    EmptyPicks,
    /// There was no memory.
    Memory,
}

impl From<Memory> for EvalFault {
    ghost use Rattle.fire_eval.specs.declared.report.EvalFault.TheVariants.{Memory as NoMemory};

    ghost from_gives = { λ _ fault. fault ≡ NoMemory };

    fn from(_memory: Memory) -> EvalFault {
        EvalFault::Memory
    }
}
