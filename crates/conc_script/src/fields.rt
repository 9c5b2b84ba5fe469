ghost use Rattle.std.specs.Prelude.{◌≡◌, true, false, MatchOption};
ghost use Rattle.std.specs.List.{list_all};
ghost use Rattle.std.specs.Str as str_spec;
ghost use Rattle.csv.specs.Records.{fields_of};
ghost use Rattle.conc_types.specs.Words.{has_length};
ghost use Rattle.conc_script.specs.Fields.{list_of};
ghost use Rattle.conc_script.specs.Script as script_spec;
ghost use Rattle.conc_script.specs.Script.{header, is_record, same_fields};

use conc_data_records::ByteRecord;
use conc_types::is_utf8;

/// The eight fields of a record of a script.
#[derive(Clone, Copy)]
pub(crate) struct Fields<'a> {
    pub at: &'a [u8],
    pub word: &'a [u8],
    pub what: &'a [u8],
    pub user: &'a [u8],
    pub priority: &'a [u8],
    pub start: &'a [u8],
    pub domain: &'a [u8],
    pub argument: &'a [u8],
}

impl Fields<'_> {
    // Whether each is UTF-8.
    fn are_text(&self) -> bool
        ensures { result ≡ list_all str_spec.is_utf8 (list_of self.now) }
    {
        is_utf8(self.at)
            && is_utf8(self.word)
            && is_utf8(self.what)
            && is_utf8(self.user)
            && is_utf8(self.priority)
            && is_utf8(self.start)
            && is_utf8(self.domain)
            && is_utf8(self.argument)
    }

    /// Whether these are the fields of the header.
    pub(crate) fn are_header(&self) -> bool
        ensures { result ≡ same_fields (list_of self.now) header }
    {
        self.at == b"at".as_slice()
            && self.word == b"do".as_slice()
            && self.what == b"what".as_slice()
            && self.user == b"user".as_slice()
            && self.priority == b"priority".as_slice()
            && self.start == b"start".as_slice()
            && self.domain == b"domain".as_slice()
            && self.argument == b"argument".as_slice()
    }
}

// The field at a place, from 0, and nothing where there is none.
fn field(row: &ByteRecord, place: usize) -> &[u8]
    ensures { result.now ≡ script_spec.field place (fields_of row.now) }
{
    row.get(place).unwrap_or(&[])
}

// The fields of a record that has eight.
fn eight(row: &ByteRecord) -> Option<Fields<'_>>
    ensures { MatchOption result (has_length 8 (fields_of row.now) ≡ false)
        (λ fields. fields_of row.now ≡ list_of fields) }
{
    if row.len() != 8 {
        return None;
    }
    Some(Fields {
        at: field(row, 0),
        word: field(row, 1),
        what: field(row, 2),
        user: field(row, 3),
        priority: field(row, 4),
        start: field(row, 5),
        domain: field(row, 6),
        argument: field(row, 7),
    })
}

/// The fields of a record, if it has eight and each is UTF-8.
#[tactic(auto, unfolding(crate::specs::Script::is_record))]
pub(crate) fn fields_in(row: &ByteRecord) -> Option<Fields<'_>>
    ensures { MatchOption result (is_record (fields_of row.now) ≡ false)
        (λ fields. (is_record (fields_of row.now) ≡ true) × (fields_of row.now ≡ list_of fields)) }
{
    let fields = eight(row)?;
    if fields.are_text() {
        Some(fields)
    } else {
        None
    }
}
