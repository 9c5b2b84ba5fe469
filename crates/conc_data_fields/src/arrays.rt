ghost use Rattle.std.specs.Prelude.{◌≡◌, IfOk};
ghost use Rattle.conc_data_fields.specs.Arrays as spec;
ghost use Rattle.conc_data_fields.specs.Arrays.{array_in, list_in};
ghost use Rattle.conc_data_fields.specs.Reads.{IfRead};
ghost use Rattle.toml.specs.View.{array_view, view};

use crate::lines::{goods, worst};
use crate::{Counted, FieldFail, Form, Judged};
use conc_types::{NoMemory, RefusalKind, Seq};
use std::alloc::Global;
use std::marker::PhantomData;
use toml::Value;

/// What each item of an array is read as, in order.
pub fn read_all<F: Form>(alloc: Global, items: &Vec<Value>) -> Result<Seq<Judged<F::Out>>, NoMemory>
    ensures { IfOk result (λ all. all ≡ spec.read_all F.form (array_view items.now)) }
{
    let mut all = Vec::new(alloc);
    for item in items {
        match F::read(alloc, item) {
            Ok(value) => all.push(Ok(value))?,
            Err(FieldFail::Refused(kind)) => all.push(Err(kind))?,
            Err(FieldFail::NoMemory) => return Err(NoMemory),
        }
    }
    Ok(Seq::from_vec(all))
}

/// All the values, or the least kind of what is wrong with one of them.
pub fn all_good<T: Drop>(alloc: Global, all: Seq<Judged<T>>) -> Result<Seq<T>, FieldFail>
    ensures { IfRead result (λ r. r ≡ spec.all_good all) }
{
    match worst(all.as_slice()) {
        None => Ok(goods(alloc, all)?),
        Some(kind) => Err(FieldFail::Refused(kind)),
    }
}

/// No values, where there need be none. It takes no memory.
pub fn no_values<T: Drop, const MOST: usize>(alloc: Global) -> Counted<T, 0, MOST>
    ensures { result ≡ spec.no_values MOST }
{
    Counted {
        list: Seq::from_vec(Vec::new(alloc)),
    }
}

/// A list of `FEW` to `MOST` values: `OutOfRange` for a shorter list, and else `TooMany` for a longer
/// one. It takes no memory.
pub fn counted<T: Drop, const FEW: usize, const MOST: usize>(
    list: Seq<T>,
) -> Judged<Counted<T, FEW, MOST>>
    ensures { result ≡ spec.counted FEW MOST list }
{
    let count = list.len();
    if FEW <= count && count <= MOST {
        Ok(Counted { list })
    } else if count < FEW {
        Err(RefusalKind::OutOfRange)
    } else {
        Err(RefusalKind::TooMany)
    }
}

fn list_of<F: Form>(alloc: Global, items: &Vec<Value>) -> Result<Seq<F::Out>, FieldFail>
    ensures { IfRead result (λ r. r ≡ spec.list_of F.form (array_view items.now)) }
{
    let all = read_all::<F>(alloc, items)?;
    all_good(alloc, all)
}

/// An array of any number of items of a form. What is wrong with it is the least kind of what is
/// wrong with an item.
pub struct ListForm<F> {
    item: PhantomData<F>,
}

impl<F: Form> Form for ListForm<F> {
    type Out = Seq<F::Out>;

    ghost form = { list_in F.form };

    #[tactic(auto, unfolding(crate::specs::Arrays::list_in))]
    fn read(alloc: Global, value: &Value) -> Result<Seq<F::Out>, FieldFail> {
        match value.as_array() {
            None => Err(FieldFail::Refused(RefusalKind::WrongKind)),
            Some(items) => list_of::<F>(alloc, items),
        }
    }
}

/// An array of `FEW` to `MOST` items of a form, where `FEW` is 0 or 1. What is wrong with it is the
/// least kind of what is wrong with an item, and only where nothing is, `OutOfRange` for too few
/// items and `TooMany` for too many.
pub struct ArrayForm<F, const FEW: usize, const MOST: usize> {
    item: PhantomData<F>,
}

impl<F: Form, const FEW: usize, const MOST: usize> Form for ArrayForm<F, FEW, MOST> {
    type Out = Counted<F::Out, FEW, MOST>;

    ghost form = { array_in FEW MOST F.form };

    #[tactic(auto, unfolding(crate::specs::Arrays::array_in))]
    fn read(alloc: Global, value: &Value) -> Result<Counted<F::Out, FEW, MOST>, FieldFail> {
        let list = ListForm::<F>::read(alloc, value)?;
        Ok(counted(list)?)
    }
}
