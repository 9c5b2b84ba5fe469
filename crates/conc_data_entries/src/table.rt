ghost use Rattle.std.specs.Prelude.{◌≡◌, List, Option, Result, map, ℕ};
ghost use Rattle.conc_types.specs.declared.kind.RefusalKind.{RefusalKind};
ghost use Rattle.conc_types.specs.declared.kind.RefusalKind.TheVariants as refused;
ghost use Rattle.conc_data_fields.specs.Reads.{IfRead};
ghost use Rattle.conc_data_entries.specs.Tables as spec;
ghost use Rattle.conc_data_entries.specs.Tables.{table_in, word_in};
ghost use Rattle.toml.specs.Data.{Members};
ghost use Rattle.toml.specs.View.{table_view, view};

use conc_data_fields::{FieldFail, Form, string};
use conc_types::RefusalKind;
use std::alloc::Global;
use std::marker::PhantomData;
use toml::{Table, Value};

/// What a setup file gives as a table, read by its keys.
pub trait FromTable: Drop {
    ghost fields: { Members → Result Self RefusalKind };

    /// The value that the table gives, or the least kind of the rules that it breaks, unless memory runs out.
    fn from_table(alloc: Global, table: &Table) -> Result<Self, FieldFail>
        ensures { IfRead result (λ r. r ≡ fields (table_view table.now)) };
}

/// The form of a table that is read by its keys.
pub struct TableForm<T>(PhantomData<T>);

impl<T: FromTable> Form for TableForm<T> {
    type Out = T;

    ghost form = { table_in T.fields };

    fn read(alloc: Global, value: &Value) -> Result<T, FieldFail> {
        match value.as_table() {
            None => Err(FieldFail::Refused(RefusalKind::WrongKind)),
            Some(table) => T::from_table(alloc, table),
        }
    }
}

/// What a word stands for, where it is one of these.
pub(crate) fn one_of<T: Copy>(words: &[(&str, T)], word: &str) -> Option<T>
    ensures { result ≡ spec.one_of (map (λ entry. (entry.0.now, entry.1)) words.now) word.now }
{
    match words.split_first() {
        None => None,
        Some(((first, value), rest)) => {
            if word == *first {
                Some(*value)
            } else {
                one_of(rest, word)
            }
        }
    }
}

/// What a setup file gives as one of a few words.
pub(crate) trait FromWord: Drop {
    ghost of_word: { List ℕ → Option Self };

    /// What the word stands for, where it is one of them.
    fn from_word(word: &str) -> Option<Self>
        ensures { result ≡ of_word word.now };
}

/// The form of a word. One that stands for nothing is `OutOfRange`.
pub(crate) struct WordForm<T>(PhantomData<T>);

impl<T: FromWord> Form for WordForm<T> {
    type Out = T;

    ghost form = { word_in refused.OutOfRange T.of_word };

    fn read(_alloc: Global, value: &Value) -> Result<T, FieldFail> {
        match T::from_word(string(value)?) {
            None => Err(FieldFail::Refused(RefusalKind::OutOfRange)),
            Some(value) => Ok(value),
        }
    }
}
