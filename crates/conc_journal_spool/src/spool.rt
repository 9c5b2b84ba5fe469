ghost use Rattle.std.specs.Prelude.{◌≡◌, ◌+◌, ◌<◌, ◌≤◌, ◌^◌, length, vec_len, IfErr, IfOk, IsErrOf, OnErr, OnOk};
ghost use Rattle.conc_types.specs.declared.limits.TheConstants.{MOST_REPORT_BYTES};
ghost use Rattle.conc_outside.specs.Counts.{Rose};
ghost use Rattle.conc_disk.specs.Disk.{HasAt, Reaches, SeenFollows, Stays, Torn};
ghost use Rattle.conc_disk.specs.Left.{HasWritten, LeavesOnly, TornFrom};

use crate::SpoolFail;
use conc_disk::{Disk, DiskFault, ReadBack, settle};
use conc_types::Extent;
use std::alloc::Global;

/// The texts of reports, one after the other from byte 0 of a disk, and nothing else before their
/// end. It does not hold the disk, which each call is handed. What the disk has past them means
/// nothing and is written over.
#[derive(Debug, Drop, PartialEq, Eq)]
pub struct Spool {
    used: u64,
}

impl Spool {
    ghost use Rattle.conc_journal_spool.specs.Spools.{Agrees, IsOn, IsShort, KeepsBelow, used_of};

    /// Opens the spool whose texts have this many bytes. It begins with a sync, writes nothing and
    /// takes no memory.
    pub fn open_on<E: Disk>(disk: &mut E, used: u64) -> Result<Spool, SpoolFail>
        ensures on { IfOk result (λ spool. IsOn spool (E.state disk.new)) }
        ensures used { IfOk result (λ spool. used_of spool ≡ used) }
        ensures long { OnOk result (Reaches (E.state disk.old) used) }

        ensures short { IfErr result (IsShort used (E.state disk.old)) }
        ensures fault { IsErrOf result SpoolFail.DiskFault
            → Rose (E.state disk.old).faults (E.state disk.new).faults }

        ensures same { Stays (E.state disk.old) (E.state disk.new) }
        ensures survives { LeavesOnly (E.state disk.old).may_leave (E.state disk.old)
            (E.state disk.new) }
    {
        // What is read later is on the disk.
        let Ok(len) = settle(disk) else {
            return Err(SpoolFail::DiskFault);
        };
        if len < used {
            return Err(SpoolFail::Short { len });
        }
        Ok(Spool { used })
    }

    /// How many bytes its texts have.
    pub fn used(&self) -> u64
        ensures { result ≡ used_of self.now }
    {
        self.used
    }

    /// Adds a text of 1 to 1,048,576 bytes and gives its place. An `Ok` means that it is on the
    /// disk, where nothing else changed. After a fault the spool is as before, and the next text goes
    /// to the same place. A crash at any moment leaves all bytes but those of that place. It takes no
    /// memory.
    pub fn append<E: Disk>(&mut self, disk: &mut E, bytes: &[u8]) -> Result<Extent, DiskFault>
        requires some { 1 ≤ length bytes.now }
        requires few { length bytes.now ≤ MOST_REPORT_BYTES }
        requires fits { used_of self.old + length bytes.now < 2 ^ 64 }
        requires on { IsOn self.old (E.state disk.old) }

        ensures offset { IfOk result (λ extent. extent.offset ≡ used_of self.old) }
        ensures length { IfOk result (λ extent. extent.length ≡ length bytes.now) }
        ensures used { OnOk result (used_of self.new ≡ used_of self.old + length bytes.now) }
        ensures text { OnOk result (HasAt (E.state disk.new) (used_of self.old) bytes.now) }

        // What it writes, and where.
        ensures written { OnOk result (HasWritten (used_of self.old) bytes.now (E.state disk.old)
            (E.state disk.new)) }
        ensures torn { SeenFollows (Torn (used_of self.old) (length bytes.now)) (E.state disk.old)
            (E.state disk.new) }
        ensures writes_there { LeavesOnly (TornFrom (E.state disk.old) (used_of self.old)
            (length bytes.now)) (E.state disk.old) (E.state disk.new) }

        ensures unchanged { OnErr result (used_of self.new ≡ used_of self.old) }
        ensures fault { OnErr result (Rose (E.state disk.old).faults (E.state disk.new).faults) }

        ensures on { IsOn self.new (E.state disk.new) }
        ensures before { SeenFollows (Agrees (used_of self.old)) (E.state disk.old)
            (E.state disk.new) }
        ensures survives { LeavesOnly (KeepsBelow (used_of self.old) (E.state disk.old))
            (E.state disk.old) (E.state disk.new) }
    {
        disk.write_at(self.used, bytes)?;
        disk.sync()?; // from here on each image has the text
        let extent = Extent {
            offset: self.used,
            length: bytes.len() as u32,
        };
        self.used += bytes.len() as u64;
        Ok(extent)
    }

    /// Reads a text back, which must end within the spool.
    pub fn read<E: Disk>(
        &self,
        alloc: Global,
        disk: &mut E,
        extent: Extent,
    ) -> Result<Vec<u8>, ReadBack>
        requires within { extent.offset + extent.length ≤ used_of self.now }
        requires on { IsOn self.now (E.state disk.old) }

        ensures length { IfOk result (λ text. vec_len text ≡ extent.length) }
        ensures text { IfOk result (λ text. HasAt (E.state disk.old) extent.offset text.items) }

        ensures fault { IsErrOf result ReadBack.DiskFault
            → Rose (E.state disk.old).faults (E.state disk.new).faults }

        ensures on { IsOn self.now (E.state disk.new) }
        ensures same { Stays (E.state disk.old) (E.state disk.new) }
        ensures survives { LeavesOnly (E.state disk.old).may_leave (E.state disk.old)
            (E.state disk.new) }
    {
        let mut text = vec![in alloc; 0u8; extent.length as usize]?;
        disk.read(extent.offset, &mut text)?;
        Ok(text)
    }
}
