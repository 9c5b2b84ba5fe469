use std::marker::Brand;

/// Names one view: its book, and the number that its watchers share. A program picks the name where it
/// begins the view, and all that belongs to the view bears it in its type.
pub trait Naming {
    ghost use Rattle.conc_view.specs.Names.{Name};

    ghost name: { Name };
}

impl Naming for Brand {
    ghost use Rattle.conc_view.specs.Names.{no_name};

    ghost name = { no_name };
}
