ghost use Rattle.std.specs.Prelude.{◌≡◌, List, Option, ℕ};
ghost use Rattle.conc_data_fields.specs.Fields as fields_spec;
ghost use Rattle.conc_data_fields.specs.Reads.{good_read};
ghost use Rattle.conc_data_entries.specs.Sets as spec;
ghost use Rattle.toml.specs.View.{table_view};

use crate::table::{FromTable, TableForm};
use crate::{RawLinks, RawSet, RawStage};
use conc_data_fields::{
    ArrayForm, Counted, FieldFail, NameForm, TruthForm, beside, both, default, keys_kind, optional,
    required,
};
use conc_types::{Name, RefusalKind};
use std::alloc::Global;
use toml::Table;

fn stage_keys(table: &Table) -> Option<RefusalKind>
    ensures { result ≡ fields_spec.keys_kind spec.stage_keys (table_view table.now) }
{
    keys_kind(
        &[
            "name",
            "critical",
            "on_success",
            "on_warning",
            "on_error",
            "members",
        ],
        table,
    )
}

type StageParts = (
    Name,
    (
        bool,
        (
            Option<Name>,
            (Option<Name>, (Option<Name>, Counted<Name, 1, 64>)),
        ),
    ),
);

fn to_stage(parts: Result<StageParts, FieldFail>) -> Result<RawStage, FieldFail>
    ensures { result ≡ good_read spec.to_stage parts }
{
    let (name, (critical, (success, (warning, (error, members))))) = parts?;
    let links = RawLinks {
        success,
        warning,
        error,
    };
    Ok(RawStage {
        name,
        critical,
        links,
        members,
    })
}

/// A stage of a set, with 1 to 64 members.
type StageForm = TableForm<RawStage>;

impl FromTable for RawStage {
    ghost fields = { spec.stage_of };

    fn from_table(alloc: Global, table: &Table) -> Result<Self, FieldFail> {
        let name = required::<NameForm>(alloc, table, "name");
        let critical = default::<TruthForm>(alloc, false, table, "critical");
        let success = optional::<NameForm>(alloc, table, "on_success");
        let warning = optional::<NameForm>(alloc, table, "on_warning");
        let error = optional::<NameForm>(alloc, table, "on_error");
        let members = required::<ArrayForm<NameForm, 1, 64>>(alloc, table, "members");
        let parts = both(
            name,
            both(critical, both(success, both(warning, both(error, members)))),
        );
        beside(stage_keys(table), to_stage(parts))
    }
}

fn set_keys(table: &Table) -> Option<RefusalKind>
    ensures { result ≡ fields_spec.keys_kind spec.set_keys (table_view table.now) }
{
    keys_kind(&["name", "stage"], table)
}

fn to_set(parts: Result<(Name, Counted<RawStage, 1, 64>), FieldFail>) -> Result<RawSet, FieldFail>
    ensures { result ≡ good_read spec.to_set parts }
{
    let (name, stages) = parts?;
    Ok(RawSet { name, stages })
}

impl FromTable for RawSet {
    ghost fields = { spec.set_of };

    fn from_table(alloc: Global, table: &Table) -> Result<Self, FieldFail> {
        let name = required::<NameForm>(alloc, table, "name");
        let stages = required::<ArrayForm<StageForm, 1, 64>>(alloc, table, "stage");
        beside(set_keys(table), to_set(both(name, stages)))
    }
}

/// A request set: a table of the array `set`. No stage is `OutOfRange`, as is a stage without a
/// member, and more than 64 are `TooMany`, as are more than 64 members of a stage.
pub type SetForm = TableForm<RawSet>;
