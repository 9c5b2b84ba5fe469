/// A value that stands for a list of events.
pub trait Listing {
    ghost use Rattle.std.specs.Prelude.{List};
    ghost use Rattle.conc_types.specs.declared.event.Event.{Event};

    ghost list: { Self → List Event };
}
