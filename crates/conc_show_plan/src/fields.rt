ghost use Rattle.std.specs.Prelude.{◌≡◌, [], ◌∷◌, false, MatchOption};
ghost use Rattle.conc_types.specs.Words.{has_length};
ghost use Rattle.conc_show_plan.specs.Fields.{list_of};
ghost use Rattle.conc_show_plan.specs.Lines.{fields_of};

use conc_history_lines::split_once;

/// The numbers of a member's set and of its stage there.
#[derive(Clone, Copy)]
pub(crate) struct Member<'a> {
    pub set: &'a [u8],
    pub stage: &'a [u8],
}

/// The eight fields of a line of the listing of a plan.
#[derive(Clone, Copy)]
pub(crate) struct Fields<'a> {
    pub number: &'a [u8],
    pub priority: &'a [u8],
    pub start: &'a [u8],
    pub member: Member<'a>,
    pub domain: &'a [u8],
    pub user: &'a [u8],
    pub name: &'a [u8],
}

// The first field of a line, and the fields behind it, if there are any.
fn split_field(line: &[u8]) -> (&[u8], Option<&[u8]>)
    ensures { MatchOption result.1 (fields_of line.now ≡ result.0.now ∷ [])
        (λ rest. fields_of line.now ≡ result.0.now ∷ fields_of rest.now) }
{
    match split_once(line, b'\t') {
        Some((field, rest)) => (field, Some(rest)),
        None => (line, None),
    }
}

/// The fields of a line that has eight.
pub(crate) fn eight(line: &[u8]) -> Option<Fields<'_>>
    ensures { MatchOption result (has_length 8 (fields_of line.now) ≡ false)
        (λ fields. fields_of line.now ≡ list_of fields) }
{
    let (number, rest) = split_field(line);
    let (priority, rest) = split_field(rest?);
    let (start, rest) = split_field(rest?);
    let (set, rest) = split_field(rest?);
    let (stage, rest) = split_field(rest?);
    let (domain, rest) = split_field(rest?);
    let (user, rest) = split_field(rest?);
    let (name, rest) = split_field(rest?);
    match rest {
        Some(_) => None,
        None => Some(Fields {
            number,
            priority,
            start,
            member: Member { set, stage },
            domain,
            user,
            name,
        }),
    }
}
