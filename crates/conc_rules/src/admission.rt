ghost use Rattle.std.specs.Prelude.{◌≡◌};
ghost use Rattle.std.specs.List.{list_any};
ghost use Rattle.conc_base_law.specs.Managers as spec;

use crate::items::{is_same_item, is_set};
use conc_types::{Item, Manager, Req, Rule};

#[tactic(auto, unfolding(conc_base_law::specs::Managers::matches))]
fn matches(r: &Req, rule: &Rule) -> bool
    ensures { result ≡ spec.matches r.now rule.now }
{
    if let Some(program) = rule.program {
        if !is_same_item(Item::Program(program), r.item) {
            return false;
        }
    }
    if let Some(request_type) = &rule.request_type {
        if request_type.as_slice() != r.request_type.as_slice() {
            return false;
        }
    }
    match &rule.user {
        Some(user) => user.as_bytes() == r.user.as_bytes(),
        None => true,
    }
}

fn some_rule_matches(rules: &[Rule], r: &Req) -> bool
    ensures { result ≡ list_any (spec.matches r.now) rules.now }
{
    rules.iter().any(|rule| matches(r, rule))
}

/// Whether a manager admits a request: it is no set, the manager has no Include rule or one that
/// matches, and no Exclude rule matches. It takes no memory.
#[tactic(auto, unfolding(conc_base_law::specs::Managers::admits))]
pub fn admits(manager: &Manager, r: &Req) -> bool
    ensures { result ≡ spec.admits manager.now r.now }
{
    !is_set(r.item)
        && (manager.include.is_empty() || some_rule_matches(manager.include.as_slice(), r))
        && !some_rule_matches(manager.exclude.as_slice(), r)
}
