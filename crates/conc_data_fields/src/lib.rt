//! What the keys of a TOML table hold: a value of the form that is asked for, or the least kind of
//! the rules that it breaks.
#![tactic(auto)]

mod arrays;
mod fields;
mod forms;
mod keys;
mod kinds;
mod lines;
mod values;

pub use arrays::{ArrayForm, ListForm, all_good, counted, no_values, read_all};
pub use fields::{default, field, optional, required};
pub use forms::{Form, NameForm, TextForm, TruthForm, WholeForm, no_text, string};
pub use keys::keys_kind;
pub use kinds::{FieldFail, Judged, beside, both};
pub use lines::{first_wrong, goods};
pub use values::{Counted, ShortText};
