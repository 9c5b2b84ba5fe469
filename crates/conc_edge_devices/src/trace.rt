ghost use Rattle.std.specs.Prelude.{◌≡◌, ℕ, ◌≤◌, ◌++◌, [], ◌∷◌, List, length, IfOk, IsTrue, IsSome, OnErr, OnOk, Vec};
ghost use Rattle.std.specs.declared.alloc.Global.{Global};
ghost use Rattle.conc_disk.specs.Disk.{written};
ghost use Rattle.conc_edge_devices.specs.Trace.{after, all_fit, start_of};

use std::alloc::{AllocError, Global};

/// What a call does to a disk.
#[derive(Drop)]
pub(crate) enum Act {
    Write { at: usize, bytes: Vec<u8> },
    Cut { len: usize },
    Sync,
}

/// What the call with this number did.
#[derive(Drop)]
pub(crate) struct Change {
    pub(crate) number: u64,
    pub(crate) act: Act,
}

/// What a disk had at first, each change since, and what is read now. Until the first change there
/// is no copy of what it had.
#[derive(Drop)]
pub(crate) struct Trace {
    first: Option<Vec<u8>>,
    bytes: Vec<u8>,
    changes: Vec<Change>,
    ghost replays: { bytes.items ≡ after changes.items (start_of first bytes.items) },
    ghost fit: { IsTrue (all_fit changes.items (start_of first bytes.items)) },
}

/// Writes a piece over the bytes from here on, and past their end. Without memory the bytes stay.
pub(crate) fn put(bytes: &mut Vec<u8>, at: usize, piece: &[u8]) -> Result<(), AllocError>
    requires { at ≤ length bytes.old.items }
    ensures ok { OnOk result (bytes.new.items ≡ written at piece.now bytes.old.items) }
    ensures err { OnErr result (bytes.new.items ≡ bytes.old.items) }
{
    let over = piece.len().min(bytes.len() - at);
    bytes.extend_from_slice(&piece[over..])?;
    bytes[at..at + over].copy_from_slice(&piece[..over]);
    Ok(())
}

impl Trace {
    ghost use Rattle.conc_edge_devices.specs.Grows.{Grows, IsSame, start};
    ghost use Rattle.conc_edge_devices.specs.declared.trace.Act.TheVariants.{Write, Cut, Sync};

    /// A trace without changes, which takes no memory.
    pub(crate) fn new(alloc: Global, bytes: Vec<u8>) -> Trace
        ensures bytes { result.bytes.items ≡ bytes.items }
        ensures first { start_of result.first result.bytes.items ≡ bytes.items }
        ensures changes { result.changes.items ≡ [] }
    {
        Trace {
            first: None,
            bytes,
            changes: Vec::new(alloc),
        }
    }

    /// What a read gives.
    pub(crate) fn bytes(&self) -> &[u8]
        ensures { result.now ≡ self.now.bytes.items }
    {
        &self.bytes
    }

    /// What it had at first.
    pub(crate) fn start(&self) -> &[u8]
        ensures bytes { result.now ≡ start self.now }
        ensures fit { IsTrue (all_fit self.now.changes.items result.now) }
    {
        match &self.first {
            Some(first) => first,
            None => &self.bytes,
        }
    }

    /// Each change, in order.
    pub(crate) fn changes(&self) -> &[Change]
        ensures { result.now ≡ self.now.changes.items }
    {
        &self.changes
    }

    /// Keeps a copy of what was there at first, if there is none yet.
    fn begin(&mut self, alloc: Global) -> Result<(), AllocError>
        ensures begun { OnOk result (IsSome self.new.first) }
        ensures stays { IsSame self.old self.new }
    {
        if self.first.is_none() {
            self.first = Some(self.bytes.to_vec(alloc)?);
        }
        Ok(())
    }

    /// Writes bytes from here on, in the call with this number. Without memory nothing changes.
    pub(crate) fn write(
        &mut self,
        alloc: Global,
        number: u64,
        at: usize,
        bytes: &[u8],
    ) -> Result<(), AllocError>
        requires { at ≤ length self.old.bytes.items }
        ensures written { OnOk result ((v : Vec ℕ Global) × (v.items ≡ bytes.now)
            × Grows self.old self.new number (Write at v)) }
        ensures stays { OnErr result (IsSame self.old self.new) }
    {
        self.begin(alloc)?;
        let count = self.changes.len();
        let act = Act::Write {
            at,
            bytes: bytes.to_vec(alloc)?,
        };
        self.changes.push(Change { number, act })?;
        match put(&mut self.bytes, at, bytes) {
            Ok(()) => Ok(()),
            Err(error) => {
                self.changes.truncate(count);
                Err(error)
            }
        }
    }

    /// Takes off what is past this length, in the call with this number. Without memory nothing
    /// changes.
    pub(crate) fn cut(&mut self, alloc: Global, number: u64, len: usize) -> Result<(), AllocError>
        ensures cut { OnOk result (Grows self.old self.new number (Cut len)) }
        ensures stays { OnErr result (IsSame self.old self.new) }
    {
        self.begin(alloc)?;
        let act = Act::Cut { len };
        self.changes.push(Change { number, act })?;
        self.bytes.truncate(len);
        Ok(())
    }

    /// Syncs in the call with this number. Without memory nothing changes.
    pub(crate) fn sync(&mut self, number: u64) -> Result<(), AllocError>
        ensures synced { OnOk result (Grows self.old self.new number Sync) }
        ensures stays { OnErr result (IsSame self.old self.new) }
    {
        let act = Act::Sync;
        self.changes.push(Change { number, act })?;
        Ok(())
    }
}
