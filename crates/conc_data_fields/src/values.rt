ghost use Rattle.std.specs.Prelude.{IsTrue, length};
ghost use Rattle.conc_types.specs.Texts.{is_text};
ghost use Rattle.conc_types.specs.Words.{is_between};

use conc_types::{Seq, Text};

/// A text of at most so many bytes.
#[derive(Drop)]
pub struct ShortText<const MOST: usize> {
    pub text: Text,
    ghost short: { IsTrue (is_text MOST text) },
}

/// A list of `FEW` to `MOST` values.
#[derive(Drop)]
pub struct Counted<T, const FEW: usize, const MOST: usize> {
    pub list: Seq<T>,
    ghost counted: { IsTrue (is_between FEW MOST (length list)) },
}
