ghost use Rattle.std.specs.Prelude.{◌≡◌, IfOk, Option};
ghost use Rattle.std.specs.Option.{option_map};
ghost use Rattle.conc_data_fields.specs.Fields as fields_spec;
ghost use Rattle.conc_data_fields.specs.Reads.{IfRead, judged_read};
ghost use Rattle.conc_setup.specs.Documents as spec;
ghost use Rattle.toml.specs.Parse.{parse_document};
ghost use Rattle.toml.specs.View.{table_view, view};

use crate::places::places_in_all;
use crate::raw::Document;
use conc_data_entries::{
    EntryForm, ManagerForm, ProgramForm, RawEntry, RawManager, RawSet, SetForm,
};
use conc_data_fields::{
    ArrayForm, Counted, FieldFail, Form, Judged, NameForm, beside, both, counted, default,
    keys_kind, no_values, read_all,
};
use conc_types::{Name, NoMemory, Program, RefusalKind};
use std::alloc::Global;
use std::marker::PhantomData;
use toml::{Table, Value};

// The greatest length of a setup file, in bytes.
const MOST_BYTES: usize = 67_108_864;

/// An array of at most `MOST` entries, each of which is read by itself. More are `TooMany`.
struct EntriesForm<F, const MOST: usize> {
    entry: PhantomData<F>,
}

impl<F: Form, const MOST: usize> Form for EntriesForm<F, MOST> {
    type Out = Counted<Judged<F::Out>, 0, MOST>;

    ghost form = { spec.entries_in MOST F.form };

    #[tactic(auto, unfolding(crate::specs::Documents::entries_in))]
    fn read(alloc: Global, value: &Value) -> Result<Counted<Judged<F::Out>, 0, MOST>, FieldFail> {
        match value.as_array() {
            None => Err(FieldFail::Refused(RefusalKind::WrongKind)),
            Some(items) => Ok(counted(read_all::<F>(alloc, items)?)?),
        }
    }
}

fn top_keys(file: &Table) -> Option<RefusalKind>
    ensures { result ≡ fields_spec.keys_kind spec.top_keys (table_view file.now) }
{
    keys_kind(
        &["tables", "program", "incompatible", "manager", "set"],
        file,
    )
}

type Programs = Counted<Judged<Program>, 0, 1024>;

type Entries = Counted<Judged<RawEntry>, 0, 4096>;

type Managers = Counted<Judged<RawManager>, 0, 64>;

type Sets = Counted<Judged<RawSet>, 0, 256>;

fn document_of_parts(
    tables: Counted<Name, 0, 64>,
    programs: Programs,
    entries: Entries,
    managers: Managers,
    sets: Sets,
) -> Judged<Document>
    ensures { result ≡ spec.to_document (tables, (programs, (entries, (managers, sets)))) }
{
    if places_in_all(&managers) <= 64 {
        Ok(Document {
            tables,
            programs,
            entries,
            managers,
            sets,
        })
    } else {
        Err(RefusalKind::TooMany)
    }
}

type DocumentParts = (
    Counted<Name, 0, 64>,
    (Programs, (Entries, (Managers, Sets))),
);

fn to_document(parts: Result<DocumentParts, FieldFail>) -> Result<Document, FieldFail>
    ensures { result ≡ judged_read spec.to_document parts }
{
    let (tables, (programs, (entries, (managers, sets)))) = parts?;
    Ok(document_of_parts(tables, programs, entries, managers, sets)?)
}

#[tactic(auto, unfolding(crate::specs::Documents::document_of))]
fn document_of(alloc: Global, file: &Table) -> Result<Document, FieldFail>
    ensures { IfRead result (λ r. r ≡ spec.document_of (table_view file.now)) }
{
    let tables = default::<ArrayForm<NameForm, 0, 64>>(alloc, no_values(alloc), file, "tables");
    let programs = default::<EntriesForm<ProgramForm, 1024>>(
        alloc,
        no_values(alloc),
        file,
        "program",
    );
    let entries = default::<EntriesForm<EntryForm, 4096>>(
        alloc,
        no_values(alloc),
        file,
        "incompatible",
    );
    let managers = default::<EntriesForm<ManagerForm, 64>>(
        alloc,
        no_values(alloc),
        file,
        "manager",
    );
    let sets = default::<EntriesForm<SetForm, 256>>(alloc, no_values(alloc), file, "set");
    let document = to_document(both(tables, both(programs, both(entries, both(managers, sets)))));
    beside(top_keys(file), document)
}

// The table that a text is, if it is TOML.
fn table_of(alloc: Global, text: &str) -> Result<Option<Table>, NoMemory>
    ensures { IfOk result (λ table. option_map table_view table ≡ parse_document text.now) }
{
    match toml::table_from_str(alloc, text) {
        Ok(table) => Ok(Some(table)),
        Err(e) => {
            if e.is_memory() {
                Err(NoMemory)
            } else {
                Ok(None)
            }
        }
    }
}

fn table_in(alloc: Global, bytes: &[u8]) -> Result<Option<Table>, NoMemory>
    ensures { IfOk result (λ table. option_map table_view table ≡ spec.table_in bytes.now) }
{
    match std::str::from_utf8(bytes) {
        Ok(text) => table_of(alloc, text),
        Err(_) => Ok(None),
    }
}

/// The document that the bytes of a setup file are, or the least kind of what is wrong with the file
/// as a whole: more than 67,108,864 bytes; bytes that are not TOML; a key that the top level does not
/// list; something else than an array under one of its keys; a table's name that is none; more of
/// something than its limit allows; and more than 64 places, counted over the managers with which
/// nothing is wrong. Where memory lacks there is neither.
#[tactic(auto, unfolding(crate::specs::Documents::document_in))]
pub(crate) fn document_in(alloc: Global, bytes: &[u8]) -> Result<Document, FieldFail>
    ensures { IfRead result (λ r. r ≡ spec.document_in bytes.now) }
{
    if bytes.len() > MOST_BYTES {
        return Err(FieldFail::Refused(RefusalKind::TooMany));
    }
    match table_in(alloc, bytes)? {
        None => Err(FieldFail::Refused(RefusalKind::NotToml)),
        Some(file) => document_of(alloc, &file),
    }
}
