//! One that writes a value, and readers that take it without a wait.
ghost use Rattle.std.specs.Prelude.{◌≡◌, ◌^◌, ◌<◌, [], ◌∷◌, ◌++◌, fold, IfOk, OnErr, OnOk};
ghost use Rattle.conc_view.specs.Line.{pending, shown};

use conc_types::NoMemory;
use core::mem::replace_with;
use crossbeam_utils::rule::Unruled;
use left_right::Absorb;
use left_right::reader::Reader;
use left_right::writer::Writer;
use std::alloc::{AllocError, Global};
use std::sync::Wait;

/// The one that writes. End it by `take`.
pub(crate) struct Line<T: Absorb<O> + Drop, O: Drop> {
    writer: Writer<T, O, (), Unruled>,
}

impl<T: Absorb<O> + Drop, O: Drop> Line<T, O> {
    /// Shows the first of two values that are alike, with places for so many readers.
    pub(crate) fn new(
        alloc: Global,
        first: T,
        second: T,
        readers: u32,
    ) -> Result<Line<T, O>, AllocError>
        requires readers { 0 < readers }
        requires alike { T.state first ≡ T.state second }
        ensures shown { IfOk result (λ line. shown line ≡ first) }
        ensures pending { IfOk result (λ line. pending line ≡ []) }
    {
        let writer = Writer::new(alloc, first, second, readers as usize)?;
        Ok(Line { writer })
    }

    /// What is shown.
    pub(crate) fn shown(&self) -> &T
        ensures { result.now ≡ shown self.now }
    {
        self.writer.published()
    }

    /// One more reader.
    pub(crate) fn reader(&self) -> Result<Reader<T, (), Unruled>, AllocError> {
        self.writer.factory().reader()
    }

    /// Takes a change, which readers do not see yet.
    pub(crate) fn append(&mut self, change: O) -> Result<(), NoMemory>
        ensures taken { OnOk result (pending self.new ≡ pending self.old ++ change ∷ []) }
        ensures refused { OnErr result (pending self.new ≡ pending self.old) }
        ensures shown { shown self.new ≡ shown self.old }
    {
        match self.writer.append(change) {
            Ok(()) => Ok(()),
            Err(_) => Err(NoMemory),
        }
    }

    /// Shows all changes, where changing never fails. It waits for readers of what was shown before the
    /// last call.
    pub(crate) fn publish<R: Wait>(&mut self, rt: &R)
        requires { T.never_fails }
        ensures shown { T.state (shown self.new)
            ≡ fold T.applied (T.state (shown self.old)) (pending self.old) }
        ensures pending { pending self.new ≡ [] }
    {
        match replace_with(&mut self.writer, rt, |writer, rt| {
            writer.publish_as::<Unruled, R>(rt)
        }) {
            Ok(()) => {}
            Err(_) => unreachable!(),
        }
    }

    /// Ends the showing, and waits for readers.
    pub(crate) fn take<R: Wait>(self, rt: &R) -> Box<T>
        ensures { result.value ≡ shown self }
    {
        let Line { writer } = self;
        writer.take(rt)
    }
}
