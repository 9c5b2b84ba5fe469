ghost use Rattle.std.specs.Prelude.{◌≡◌, ◌<◌, IfSome, List, ℕ, length, map};
ghost use Rattle.std.specs.List.{position};
ghost use Rattle.std.specs.Str.{bytes_eq};
ghost use Rattle.conc_types.specs.Words as words_spec;
ghost use Rattle.conc_setup.specs.SecondPass as second_pass_spec;

use conc_types::{Name, Program};

/// What has a name.
pub(crate) trait Named {
    ghost name_of: { Self → List ℕ };

    /// Its name.
    fn name(&self) -> &Name
        ensures { result.now ≡ name_of self.now };
}

impl Named for Name {
    ghost name_of = { λ name. name };

    fn name(&self) -> &Name {
        self
    }
}

impl Named for Program {
    ghost name_of = { λ program. program.name };

    fn name(&self) -> &Name {
        &self.name
    }
}

/// Whether the name is that of one of the items.
pub(crate) fn is_among<T: Named>(items: &[T], name: &Name) -> bool
    ensures { result ≡ second_pass_spec.is_among (map T.name_of items.now) name.now }
{
    match items.split_first() {
        None => false,
        Some((item, rest)) => { name.as_bytes() == item.name().as_bytes() || is_among(rest, name) }
    }
}

/// Whether no two of the items have one name.
pub(crate) fn are_distinct<T: Named>(items: &[T]) -> bool
    ensures { result ≡ words_spec.are_distinct bytes_eq (map T.name_of items.now) }
{
    match items.split_first() {
        None => true,
        Some((item, rest)) => !is_among(rest, item.name()) && are_distinct(rest),
    }
}

/// The place of the first item with this name.
pub(crate) fn place_of<T: Named>(items: &[T], name: &Name) -> Option<usize>
    ensures value { result ≡ position (λ item. bytes_eq name.now (T.name_of item)) items.now }
    ensures within { IfSome result (λ place. place < length items.now) }
{
    items
        .iter()
        .position(|item| name.as_bytes() == item.name().as_bytes())
}
