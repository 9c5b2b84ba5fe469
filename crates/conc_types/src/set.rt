ghost use Rattle.std.specs.Prelude.{◌≡◌, ◌≤◌, ◌*◌, length, IsTrue};
ghost use Rattle.std.specs.List.{sum_by};
ghost use Rattle.conc_types.specs.Sets.{are_stages, is_stage_count};

use crate::{Name, Seq, Stage};

/// A request set. Its first stage begins it.
#[derive(Drop)]
pub struct SetDef {
    pub name: Name,
    pub stages: Seq<Stage>,
    ghost some: { IsTrue (is_stage_count (length stages)) },
    ghost forward: { IsTrue (are_stages stages) },
}

// How many members these stages have.
fn members_in(stages: &[Stage]) -> u32
    requires { length stages.now ≤ 64 }
    ensures count { result ≡ sum_by (λ s. length s.members) stages.now }
    ensures few { result ≤ 64 * length stages.now }
{
    match stages.split_first() {
        None => 0,
        Some((stage, rest)) => stage.members.len() as u32 + members_in(rest),
    }
}

impl SetDef {
    /// How many members the stages of the set have together.
    pub fn member_count(&self) -> u32
        ensures count { result ≡ sum_by (λ s. length s.members) self.now.stages }
        ensures few { result ≤ 4096 }
    {
        members_in(self.stages.as_slice())
    }
}
