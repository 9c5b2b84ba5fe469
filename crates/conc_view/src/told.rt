ghost use Rattle.std.specs.Prelude.{◌≡◌, length};
ghost use Rattle.conc_view.specs.Bounds.{raiser};

use crate::bounds::Counter;
use crate::naming::Naming;
use crate::store::Store;
use conc_types::Event;

/// All that was told, after the end.
#[derive(Drop)]
pub struct Told<J: Naming> {
    pub(crate) store: Box<Store<J>>,
    pub(crate) counter: Counter<J>,
    ghost counted: { counter ≡ raiser (length store.value.reached) },
}

impl<J: Naming> Told<J> {
    ghost use Rattle.conc_view.specs.Told.{whole_of};

    /// What was published last is all that was told.
    pub(crate) fn of(store: Box<Store<J>>, counter: Counter<J>) -> Told<J>
        requires { counter ≡ raiser (length store.value.reached) }
        ensures { whole_of result ≡ store.value.reached }
    {
        Told { store, counter }
    }

    /// The whole list.
    pub fn events(&self) -> &[Event]
        ensures { result.now ≡ whole_of self.now }
    {
        self.store.events.as_slice()
    }
}
