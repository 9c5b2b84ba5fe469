ghost use Rattle.std.specs.Prelude.{◌≡◌};
ghost use Rattle.conc_data_fields.specs.Reads.{IfRead, good_read};
ghost use Rattle.conc_setup.specs.ThirdPass as spec;

use crate::resolve::{Items, Resolve, item_of};
use conc_data_entries::RawEntry;
use conc_data_fields::{FieldFail, both};
use conc_types::{Entry, Item};
use std::alloc::Global;

fn to_entry(raw: &RawEntry, items: Result<(Item, Item), FieldFail>) -> Result<Entry, FieldFail>
    ensures { result ≡ good_read (spec.to_entry raw.now) items }
{
    let (owner, other) = items?;
    Ok(Entry {
        owner,
        other,
        scope: raw.scope,
        reach: raw.reach,
    })
}

impl Resolve for RawEntry {
    type Out = Entry;

    ghost resolved = { spec.resolved_entry };

    #[tactic(auto, unfolding(crate::specs::ThirdPass::resolved_entry))]
    fn resolve(&self, _alloc: Global, items: &Items) -> Result<Entry, FieldFail> {
        let owner = item_of(items, &self.owner);
        let other = item_of(items, &self.other);
        to_entry(self, both(owner, other))
    }
}
