ghost use Rattle.std.specs.Prelude.{◌≡◌, List, Option, ℕ};
ghost use Rattle.conc_data_fields.specs.Fields as fields_spec;
ghost use Rattle.conc_data_fields.specs.Reads.{judged_read};
ghost use Rattle.conc_data_entries.specs.Rules as spec;
ghost use Rattle.toml.specs.View.{table_view};

use crate::RawRule;
use crate::table::{FromTable, TableForm};
use conc_data_fields::{
    FieldFail, Judged, NameForm, ShortText, TextForm, beside, both, keys_kind, optional,
};
use conc_types::{Name, RefusalKind};
use std::alloc::Global;
use toml::Table;

fn rule_keys(table: &Table) -> Option<RefusalKind>
    ensures { result ≡ fields_spec.keys_kind spec.rule_keys (table_view table.now) }
{
    keys_kind(&["program", "type", "user"], table)
}

fn rule_that_names(
    program: Option<Name>,
    request_type: Option<ShortText<80>>,
    user: Option<Name>,
) -> Judged<RawRule>
    ensures { result ≡ spec.to_rule (program, (request_type, user)) }
{
    if program.is_some() || (request_type.is_some() || user.is_some()) {
        Ok(RawRule {
            program,
            request_type,
            user,
        })
    } else {
        Err(RefusalKind::Missing)
    }
}

type RuleParts = (Option<Name>, (Option<ShortText<80>>, Option<Name>));

fn to_rule(parts: Result<RuleParts, FieldFail>) -> Result<RawRule, FieldFail>
    ensures { result ≡ judged_read spec.to_rule parts }
{
    let (program, (request_type, user)) = parts?;
    Ok(rule_that_names(program, request_type, user)?)
}

impl FromTable for RawRule {
    ghost fields = { spec.rule_of };

    fn from_table(alloc: Global, table: &Table) -> Result<Self, FieldFail> {
        let program = optional::<NameForm>(alloc, table, "program");
        let request_type = optional::<TextForm<80>>(alloc, table, "type");
        let user = optional::<NameForm>(alloc, table, "user");
        let rule = to_rule(both(program, both(request_type, user)));
        beside(rule_keys(table), rule)
    }
}

/// A specialization rule of a manager. One that names nothing is `Missing`.
pub(crate) type RuleForm = TableForm<RawRule>;
