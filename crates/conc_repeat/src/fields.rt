ghost use Rattle.std.specs.Prelude.{◌≡◌, true, false, MatchOption};
ghost use Rattle.std.specs.List.{list_all};
ghost use Rattle.std.specs.Str as str_spec;
ghost use Rattle.csv.specs.Records.{fields_of};
ghost use Rattle.conc_types.specs.Words.{has_length};
ghost use Rattle.conc_repeat.specs.Kept.{list_of};
ghost use Rattle.conc_repeat.specs.Refusing.{is_record, same_fields};
ghost use Rattle.conc_repeat.specs.Series as series_spec;
ghost use Rattle.conc_repeat.specs.Series.{header};

use conc_data_records::ByteRecord;
use conc_types::is_utf8;

/// The nine fields of a record of a file of repeats.
#[derive(Clone, Copy)]
pub(crate) struct Fields<'a> {
    pub from: &'a [u8],
    pub every: &'a [u8],
    pub unit: &'a [u8],
    pub times: &'a [u8],
    pub what: &'a [u8],
    pub user: &'a [u8],
    pub priority: &'a [u8],
    pub domain: &'a [u8],
    pub argument: &'a [u8],
}

impl Fields<'_> {
    // Whether each is UTF-8.
    fn are_text(&self) -> bool
        ensures { result ≡ list_all str_spec.is_utf8 (list_of self.now) }
    {
        is_utf8(self.from)
            && is_utf8(self.every)
            && is_utf8(self.unit)
            && is_utf8(self.times)
            && is_utf8(self.what)
            && is_utf8(self.user)
            && is_utf8(self.priority)
            && is_utf8(self.domain)
            && is_utf8(self.argument)
    }

    /// Whether these are the fields of the header.
    pub(crate) fn are_header(&self) -> bool
        ensures { result ≡ same_fields (list_of self.now) header }
    {
        self.from == b"from".as_slice()
            && self.every == b"every".as_slice()
            && self.unit == b"unit".as_slice()
            && self.times == b"times".as_slice()
            && self.what == b"what".as_slice()
            && self.user == b"user".as_slice()
            && self.priority == b"priority".as_slice()
            && self.domain == b"domain".as_slice()
            && self.argument == b"argument".as_slice()
    }
}

// The field at a place, from 0, and nothing where there is none.
fn field(row: &ByteRecord, place: usize) -> &[u8]
    ensures { result.now ≡ series_spec.field place (fields_of row.now) }
{
    row.get(place).unwrap_or(&[])
}

// The fields of a record that has nine.
fn nine(row: &ByteRecord) -> Option<Fields<'_>>
    ensures { MatchOption result (has_length 9 (fields_of row.now) ≡ false)
        (λ fields. fields_of row.now ≡ list_of fields) }
{
    if row.len() != 9 {
        return None;
    }
    Some(Fields {
        from: field(row, 0),
        every: field(row, 1),
        unit: field(row, 2),
        times: field(row, 3),
        what: field(row, 4),
        user: field(row, 5),
        priority: field(row, 6),
        domain: field(row, 7),
        argument: field(row, 8),
    })
}

/// The fields of a record, if it has nine and each is UTF-8.
#[tactic(auto, unfolding(crate::specs::Refusing::is_record))]
pub(crate) fn fields_in(row: &ByteRecord) -> Option<Fields<'_>>
    ensures { MatchOption result (is_record (fields_of row.now) ≡ false)
        (λ fields. (is_record (fields_of row.now) ≡ true) × (fields_of row.now ≡ list_of fields)) }
{
    let fields = nine(row)?;
    if fields.are_text() {
        Some(fields)
    } else {
        None
    }
}
