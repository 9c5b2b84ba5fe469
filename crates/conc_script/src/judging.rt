ghost use Rattle.std.specs.Prelude.{◌≡◌, ◌+◌, ◌<◌, ◌^◌, true, false, Some, None, IfOk, IfSome, IsTrue, is_some, ℕ};
ghost use Rattle.csv.specs.Records.{fields_of};
ghost use Rattle.conc_types.specs.Decimals.{decimal_value};
ghost use Rattle.conc_types.specs.Scripts.{entered_by, is_act};
ghost use Rattle.conc_types.specs.Words.{is_between};
ghost use Rattle.conc_base_law.specs.Calendar.{moment_of};
ghost use Rattle.conc_script.specs.Actions as actions_spec;
ghost use Rattle.conc_script.specs.Actions.{act_by, is_within_limits, submit_by};
ghost use Rattle.conc_script.specs.Fields.{list_of};
ghost use Rattle.conc_script.specs.Rules.{bare_form, action_rules, record_rules, request_rules, submission_by, submit_form, submit_rules, TellsFirst};
ghost use Rattle.conc_script.specs.Script as script_spec;
ghost use Rattle.conc_script.specs.Script.{act_of, at_field, entered_by_record, order_of, submission_of};

use crate::actions::{Action, Submission, Verb};
use crate::fields::{Fields, fields_in};
use crate::words::{domain_of, item_named, priority_of, start_of};
use conc_data_records::ByteRecord;
use conc_time::read_moment;
use conc_types::{Item, Moment, RefusalKind, RequestId, Setup, is_name, is_text, read_decimal};

// How many records a script can have, with its header.
const MOST_RECORDS: usize = 4097;

const MOST_ARGUMENT_BYTES: usize = 200;

// The submission of an item at a moment, where the fields behind the item have their form.
fn form<'a>(at: Moment, item: Item, fields: &Fields<'a>) -> Option<Submission<'a>>
    ensures form { is_some result ≡ submit_form (list_of fields.now) }
    ensures said { IfSome result (λ s. submission_by at item (list_of fields.now)
        ≡ Some (submit_by s)) }
    ensures item { IfSome result (λ s. s.item ≡ item) }
    ensures fits { IfSome result (λ s. IsTrue (is_within_limits s)) }
{
    let priority = priority_of(fields.priority)?;
    let start = start_of(at, fields.start)?;
    let domain = domain_of(fields.domain)?;
    if !is_name(fields.user) || !is_text(MOST_ARGUMENT_BYTES, fields.argument) {
        return None;
    }
    Some(Submission {
        item,
        user: fields.user,
        priority,
        start,
        domain,
        argument: fields.argument,
    })
}

// The submission that the fields say at a moment, or the rule that they break.
#[tactic(auto, unfolding(crate::specs::Script::submission_of))]
fn submission<'a>(
    setup: &Setup,
    at: Moment,
    fields: &Fields<'a>,
) -> Result<Submission<'a>, RefusalKind>
    ensures rules { TellsFirst (submit_rules setup.now (list_of fields.now)) result }
    ensures said { IfOk result (λ s. submission_of setup.now at (list_of fields.now)
        ≡ Some (submit_by s)) }
    ensures item { IfOk result (λ s. script_spec.item_named setup.now fields.now.what.now
        ≡ Some s.item) }
    ensures fits { IfOk result (λ s. (next : ℕ) → IsTrue (is_act setup.now next (submit_by s))) }
{
    let item = item_named(setup, fields.what).ok_or(RefusalKind::UnknownItem)?;
    form(at, item, fields).ok_or(RefusalKind::BadField)
}

fn verb_of(word: &[u8]) -> Option<Verb>
    ensures { result ≡ actions_spec.verb_of word.now }
{
    if word == b"hold".as_slice() {
        Some(Verb::Hold)
    } else if word == b"unhold".as_slice() {
        Some(Verb::Unhold)
    } else if word == b"cancel".as_slice() {
        Some(Verb::Cancel)
    } else if word == b"terminate".as_slice() {
        Some(Verb::Terminate)
    } else {
        None
    }
}

// Whether the fields behind a request have their form: a user, which may lack, and nothing else.
fn is_bare(fields: &Fields) -> bool
    ensures { result ≡ bare_form (list_of fields.now) }
{
    (fields.user.is_empty() || is_name(fields.user))
        && fields.priority.is_empty()
        && fields.start.is_empty()
        && fields.domain.is_empty()
        && fields.argument.is_empty()
}

// The request that the fields name, one of so many that were entered, or the rule that they break.
fn request(entered: u64, fields: &Fields) -> Result<RequestId, RefusalKind>
    requires { entered < 2 ^ 32 }
    ensures rules { TellsFirst (request_rules entered (list_of fields.now)) result }
    ensures said { IfOk result (λ request. decimal_value fields.now.what.now
        ≡ Some request.number) }
    ensures fits { IfOk result (λ request. IsTrue (is_between 1 entered request.number)) }
{
    let number = read_decimal(fields.what).ok_or(RefusalKind::BadField)?;
    if number < 1 || number > entered {
        return Err(RefusalKind::UnknownRequest);
    }
    if !is_bare(fields) {
        return Err(RefusalKind::BadField);
    }
    Ok(RequestId {
        number: number as u32,
    })
}

fn is_submit(fields: &Fields) -> bool
    ensures { result ≡ script_spec.is_submit (list_of fields.now) }
{
    fields.word == b"submit".as_slice()
}

// What the fields say to do at a moment, after so many requests that were entered, or the rule that
// they break.
fn action<'a>(
    setup: &Setup,
    at: Moment,
    entered: u64,
    fields: &Fields<'a>,
) -> Result<Action<'a>, RefusalKind>
    requires { entered < 2 ^ 32 }
    ensures rules { TellsFirst (action_rules setup.now entered (list_of fields.now)) result }
    ensures said { IfOk result (λ action. act_of setup.now at (list_of fields.now)
        ≡ Some (act_by action)) }
    ensures fits { IfOk result (λ action. IsTrue (is_act setup.now (entered + 1) (act_by action))) }
    ensures enters { IfOk result (λ action. entered_by_record setup.now (list_of fields.now)
        ≡ entered_by setup.now (act_by action)) }
{
    if is_submit(fields) {
        let submission = submission(setup, at, fields)?;
        return Ok(Action::Submit(submission));
    }
    let verb = verb_of(fields.word).ok_or(RefusalKind::UnknownWord)?;
    let request = request(entered, fields)?;
    Ok(Action::On(verb, request))
}

fn is_earlier(at: Moment, before: Option<Moment>) -> bool
    ensures { result ≡ script_spec.is_earlier (Some at) before }
{
    before.is_some_and(|before| at.seconds < before.seconds)
}

/// What the record with a number says, and its moment, after so many requests that were entered and
/// after a record of the moment before; or the kind of the first rule that it breaks.
pub(crate) fn judge<'a>(
    setup: &Setup,
    number: usize,
    entered: u64,
    before: Option<Moment>,
    row: &'a ByteRecord,
) -> Result<(Moment, Action<'a>), RefusalKind>
    requires { entered < 2 ^ 32 }
    ensures rules { TellsFirst
        (record_rules setup.now number entered before (fields_of row.now)) result }
    ensures said { IfOk result (λ p. order_of setup.now (fields_of row.now)
        ≡ Some (record { at = p.0; act = act_by p.1 })) }
    ensures at { IfOk result (λ p. moment_of (at_field (fields_of row.now)) ≡ Some p.0) }
    ensures later { IfOk result (λ p. script_spec.is_earlier (Some p.0) before ≡ false) }
    ensures fits { IfOk result (λ p. IsTrue (is_act setup.now (entered + 1) (act_by p.1))) }
    ensures enters { IfOk result (λ p. entered_by_record setup.now (fields_of row.now)
        ≡ entered_by setup.now (act_by p.1)) }
{
    let fields = fields_in(row).ok_or(RefusalKind::NotCsv)?;
    if number > MOST_RECORDS {
        return Err(RefusalKind::TooManyLines);
    }
    let at = read_moment(fields.at).ok_or(RefusalKind::BadField)?;
    if is_earlier(at, before) {
        return Err(RefusalKind::MomentBack);
    }
    let action = action(setup, at, entered, &fields)?;
    Ok((at, action))
}
