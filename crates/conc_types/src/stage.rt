ghost use Rattle.std.specs.Prelude.{◌≡◌, length, IsTrue};
ghost use Rattle.conc_types.specs.Fields.{are_links};
ghost use Rattle.conc_types.specs.Stages.{has_stage, with_stage};
ghost use Rattle.conc_types.specs.Words.{is_between};

use crate::{Name, Seq};

/// A stage of a set. Its links name the stage that follows by the stage's outcome, in the order
/// success, warning, error. Its members are programs. Both are places in their lists, from 0.
#[derive(Drop)]
pub struct Stage {
    pub name: Name,
    pub critical: bool,
    pub links: [Option<u32>; 3],
    pub members: Seq<u32>,
    ghost near: { IsTrue (are_links links) },
    ghost some: { IsTrue (is_between 1 64 (length members)) },
}

/// Some of the stages 1 to 64 of a set, one bit for each, the lowest for stage 1.
#[derive(Clone, Copy, Debug, PartialEq, Eq)]
pub struct StageSet {
    pub bits: u64,
}

impl StageSet {
    /// No stage.
    pub const EMPTY: StageSet = StageSet { bits: 0 };

    /// Whether the stage is one of these. No number off 1 to 64 is.
    #[tactic(auto, unfolding(crate::specs::Stages::has_stage))]
    pub fn contains(self, stage: u32) -> bool
        ensures { result ≡ has_stage self.bits stage }
    {
        1 <= stage && stage <= 64 && (self.bits >> (stage - 1)) & 1 == 1
    }

    /// These stages and this one. A number off 1 to 64 adds none.
    #[tactic(auto, unfolding(crate::specs::Stages::with_stage))]
    pub fn with(self, stage: u32) -> Self
        ensures { result.bits ≡ with_stage self.bits stage }
    {
        if 1 <= stage && stage <= 64 {
            StageSet {
                bits: self.bits | 1 << (stage - 1),
            }
        } else {
            self
        }
    }
}
