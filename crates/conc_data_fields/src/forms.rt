ghost use Rattle.std.specs.Prelude.{◌≡◌, List, MatchResult, None, Option, Result, Some};
ghost use Rattle.conc_types.specs.declared.kind.RefusalKind.{RefusalKind};
ghost use Rattle.conc_types.specs.declared.kind.RefusalKind.TheVariants as refused;
ghost use Rattle.conc_data_fields.specs.Forms as spec;
ghost use Rattle.conc_data_fields.specs.Reads.{IfRead};
ghost use Rattle.conc_data_fields.specs.Forms.{name_in, text_in, truth_in, whole_in};
ghost use Rattle.toml.specs.Data.{Data, as_str};
ghost use Rattle.toml.specs.View.{view};

use crate::{FieldFail, Judged, ShortText};
use conc_types::{Name, RefusalKind, Seq, is_name, is_text};
use std::alloc::Global;
use toml::Value;

/// A form that a document's grammar gives for a value: what a value of this form is read as. A value
/// of another TOML type than the form's is `WrongKind`.
pub trait Form {
    /// What is read.
    type Out: Drop;

    ghost form: { Data → Result Self.Out RefusalKind };

    /// What the value is read as, or the least kind of the rules that it breaks, unless memory lacks.
    fn read(alloc: Global, value: &Value) -> Result<Self::Out, FieldFail>
        ensures { IfRead result (λ r. r ≡ form (view value.now)) };
}

/// The text of a string. A value of another type is `WrongKind`.
pub fn string(value: &Value) -> Judged<&str>
    ensures { MatchResult result (λ text. as_str (view value.now) ≡ Some text.now)
        (λ kind. (kind ≡ refused.WrongKind) × (as_str (view value.now) ≡ None)) }
{
    match value.as_str() {
        Some(text) => Ok(text),
        None => Err(RefusalKind::WrongKind),
    }
}

/// A name: a string of 1 to 80 bytes without control bytes, which are those below 32 and 127. Another
/// string is `OutOfRange`.
pub struct NameForm;

fn name_of(alloc: Global, bytes: &[u8]) -> Result<Name, FieldFail>
    ensures { IfRead result (λ r. r ≡ spec.name_of bytes.now) }
{
    if is_name(bytes) {
        Ok(Name::from_vec(bytes.to_vec(alloc)?))
    } else {
        Err(FieldFail::Refused(RefusalKind::OutOfRange))
    }
}

impl Form for NameForm {
    type Out = Name;

    ghost form = { name_in };

    fn read(alloc: Global, value: &Value) -> Result<Name, FieldFail> {
        name_of(alloc, string(value)?.as_bytes())
    }
}

/// A string of at most so many bytes without control bytes. Another string is `OutOfRange`.
pub struct TextForm<const MOST: usize>;

/// The text of no bytes. It takes no memory.
pub fn no_text<const MOST: usize>(alloc: Global) -> ShortText<MOST>
    ensures { result ≡ spec.no_text MOST }
{
    ShortText {
        text: Seq::from_vec(Vec::new(alloc)),
    }
}

fn text_of<const MOST: usize>(alloc: Global, bytes: &[u8]) -> Result<ShortText<MOST>, FieldFail>
    ensures { IfRead result (λ r. r ≡ spec.text_of MOST bytes.now) }
{
    if is_text(MOST, bytes) {
        let text = Seq::from_vec(bytes.to_vec(alloc)?);
        Ok(ShortText { text })
    } else {
        Err(FieldFail::Refused(RefusalKind::OutOfRange))
    }
}

impl<const MOST: usize> Form for TextForm<MOST> {
    type Out = ShortText<MOST>;

    ghost form = { text_in MOST };

    fn read(alloc: Global, value: &Value) -> Result<ShortText<MOST>, FieldFail> {
        text_of(alloc, string(value)?.as_bytes())
    }
}

/// A truth value.
pub struct TruthForm;

impl Form for TruthForm {
    type Out = bool;

    ghost form = { truth_in };

    fn read(_alloc: Global, value: &Value) -> Result<bool, FieldFail> {
        match value.as_bool() {
            None => Err(FieldFail::Refused(RefusalKind::WrongKind)),
            Some(truth) => Ok(truth),
        }
    }
}

/// A whole number from 0. A negative one is `OutOfRange`.
pub struct WholeForm;

fn whole_of(number: i64) -> Judged<u64>
    ensures { result ≡ spec.whole_of number }
{
    if number < 0 {
        Err(RefusalKind::OutOfRange)
    } else {
        Ok(number as u64)
    }
}

fn read_whole(value: &Value) -> Judged<u64>
    ensures { result ≡ whole_in (view value.now) }
{
    match value.as_integer() {
        None => Err(RefusalKind::WrongKind),
        Some(number) => whole_of(number),
    }
}

impl Form for WholeForm {
    type Out = u64;

    ghost form = { whole_in };

    fn read(_alloc: Global, value: &Value) -> Result<u64, FieldFail> {
        Ok(read_whole(value)?)
    }
}
