ghost use Rattle.std.specs.Prelude.{◌≡◌, ◌↔◌, ◌+◌, ◌<◌, ◌≤◌, [], ◌∷◌, ◌++◌, count_by, length, max, take, vec_len, IfOk, IsErrOf, IsOk, IsTrue, OnErr, OnOk};
ghost use Rattle.std.specs.Vec.{vec_capacity};
ghost use Rattle.conc_journal_image.specs.Fields.{has_stamp};
ghost use Rattle.conc_journal_image.specs.declared.layout.TheConstants.{MOST_RECORDS};
ghost use Rattle.conc_journal.specs.JournalStates.{fits_count};

use crate::append::{add_record, record_before_gate};
use crate::begin::write_header;
use crate::migrate::write_version;
use crate::{AppendFail, Receipt};
use conc_disk::{Disk, DiskFault};
use conc_journal_image::{Label, Version, base_of, offset_behind};
use conc_outside::Failed;
use conc_types::{Digests, Event, NoMemory};

/// What is known of a journal's disk.
#[derive(Clone, Copy, Debug, PartialEq, Eq)]
pub(crate) enum JournalState {
    /// No journal was begun here.
    NotBegun,
    /// A `begin` of a header with this label met a fault.
    BeginFailed {
        label: Label,
    },
    /// The header with this label and the list's records are there.
    Begun {
        label: Label,
    },
    /// A record is broken, and nothing may be added.
    Broken {
        label: Label,
    },
    /// An `append` of this event, with this stamp where it is a command, met a fault.
    AppendFailed {
        label: Label,
        event: Event,
        stamp: u64,
    },
    /// A `migrate` of a journal with this label, to version 2 with this base digest, met a fault.
    MigrateFailed {
        label: Label,
        base: [u8; 15],
    },
}

/// The list of a journal with the stamps of its commands, and what is known of its disk, which it does
/// not hold.
#[derive(Drop)]
pub struct Journal {
    state: JournalState,
    events: Vec<Event>,
    stamps: Vec<u64>,
    room: u64,
    ghost has_room: { room + vec_len events ≤ vec_capacity events },
    ghost has_room_for_stamps: { room + vec_len stamps ≤ vec_capacity stamps },
    ghost few: { room + vec_len events ≤ MOST_RECORDS },
    ghost begun: { IsTrue (fits_count state (vec_len events)) },
    ghost stamped: { vec_len stamps ≡ count_by has_stamp events.items },
}

impl Journal {
    ghost use Rattle.conc_outside.specs.Counts.{Rose};
    ghost use Rattle.conc_journal_image.specs.Fields.{has_record};
    ghost use Rattle.conc_journal_image.specs.Layout.{offset_behind};
    ghost use Rattle.conc_journal_image.specs.declared.layout.TheConstants.{HEADER_BYTES, RECORD_BYTES};
    ghost use Rattle.conc_journal_image.specs.Fields.{command_stamp};
    ghost use Rattle.conc_journal_image.specs.Headers.{label_for, migrated};
    ghost use Rattle.conc_journal_image.specs.declared.label.Label.{Label as LabelOf};
    ghost use Rattle.conc_journal_image.specs.declared.label.Version.TheVariants.{One};
    ghost use Rattle.conc_journal.specs.Journals.{FitsState, IsOn, list_of, room_of, stamps_held, state_of};
    ghost use Rattle.conc_disk.specs.Left.{LeavesOnly, TornFrom};
    ghost use Rattle.conc_journal.specs.Acknowledged.{IsAcknowledged, HasReceipt, StaysIn};
    ghost use Rattle.conc_journal.specs.Receipts.{event_of, number_of};
    ghost use Rattle.conc_journal.specs.Migrating.{HasMigrated};
    ghost use Rattle.conc_journal.specs.Writes.{HasAppended, HasBegun};
    ghost use Rattle.conc_journal.specs.declared.receipt.Receipt.{Receipt as Acknowledged};
    ghost use Rattle.conc_journal.specs.JournalStates.{after_fault, has_faulted, is_of_version_one, takes_events};
    ghost use Rattle.conc_journal.specs.declared.error.AppendFail.TheVariants as AppendFail;
    ghost use Rattle.conc_journal.specs.declared.journal.JournalState.TheVariants.{Begun, BeginFailed, MigrateFailed, NotBegun};

    // A journal with these events and the stamps of their commands, without room for more.
    pub(crate) fn with_events(state: JournalState, events: Vec<Event>, stamps: Vec<u64>) -> Journal
        requires few { vec_len events ≤ MOST_RECORDS }
        requires state { IsTrue (fits_count state (vec_len events)) }
        requires stamped { vec_len stamps ≡ count_by has_stamp events.items }
        ensures list { list_of result ≡ events.items }
        ensures stamps { stamps_held result ≡ stamps.items }
        ensures state { state_of result ≡ state }
        ensures room { room_of result ≡ 0 }
    {
        Journal {
            state,
            events,
            stamps,
            room: 0,
        }
    }

    /// The events that it has.
    pub fn events(&self) -> &[Event]
        ensures { result.now ≡ list_of self.now }
    {
        &self.events
    }

    /// The stamps of the commands among them, in order.
    pub fn stamps(&self) -> &[u64]
        ensures { result.now ≡ stamps_held self.now }
    {
        &self.stamps
    }

    /// Its events, where the journal is needed no more.
    pub fn into_events(self) -> Vec<Event>
        ensures { result.items ≡ list_of self }
    {
        self.events
    }

    /// Whether it is begun and no record is broken.
    pub fn takes_events(&self) -> bool
        ensures { result ≡ takes_events (state_of self.now) }
    {
        matches!(
            self.state,
            JournalState::Begun { .. }
                | JournalState::AppendFailed { .. }
                | JournalState::MigrateFailed { .. }
        )
    }

    /// Whether it is begun, of version 1, and no call met a fault.
    pub fn is_of_version_one(&self) -> bool
        ensures { result ≡ is_of_version_one (state_of self.now) }
    {
        matches!(
            self.state,
            JournalState::Begun {
                label: Label {
                    version: Version::One,
                    ..
                },
            }
        )
    }

    /// How many events it can take without memory.
    pub fn room(&self) -> u64
        ensures { result ≡ room_of self.now }
    {
        self.room
    }

    /// Takes room for this many events, unless there is as much.
    pub fn reserve(&mut self, records: u64) -> Result<(), NoMemory>
        requires { length (list_of self.old) + records ≤ MOST_RECORDS }
        ensures room { OnOk result (room_of self.new ≡ max records (room_of self.old)) }
        ensures unchanged { OnErr result (room_of self.new ≡ room_of self.old) }
        ensures enough { records ≤ room_of self.old → IsOk result }
        ensures list { list_of self.new ≡ list_of self.old }
        ensures stamps { stamps_held self.new ≡ stamps_held self.old }
        ensures state { state_of self.new ≡ state_of self.old }
    {
        self.events.reserve(records as usize)?;
        self.stamps.reserve(records as usize)?;
        self.room = self.room.max(records);
        Ok(())
    }

    /// Begins a journal of version 2 for the input with these digests, where none was begun. After an `Ok`
    /// each image that a crash may leave has its header, and no event: its 65 bytes are written, and no
    /// others. After a fault only `events` is of use.
    pub fn begin<D: Disk>(&mut self, disk: &mut D, digests: &Digests) -> Result<(), DiskFault>
        requires state { state_of self.old ≡ NotBegun }
        requires on { IsOn self.old (D.state disk.old) }
        ensures on { IsOn self.new (D.state disk.new) }
        ensures begun { OnOk result (state_of self.new ≡ Begun (label_for digests.now)) }
        ensures failed { OnErr result (state_of self.new ≡ BeginFailed (label_for digests.now)) }
        ensures fault { OnErr result (Rose (D.state disk.old).faults (D.state disk.new).faults) }
        ensures list { list_of self.new ≡ list_of self.old }
        ensures empty { list_of self.new ≡ [] }
        ensures stamps { stamps_held self.new ≡ [] }
        ensures room { room_of self.new ≡ room_of self.old }
        ensures written { OnOk result (HasBegun digests.now (D.state disk.old) (D.state disk.new)) }
        ensures survives { LeavesOnly (FitsState (BeginFailed (label_for digests.now)) [] []) (D.state disk.old)
            (D.state disk.new) }
        ensures writes_there { LeavesOnly (TornFrom (D.state disk.old) 0 (HEADER_BYTES + 1))
            (D.state disk.old) (D.state disk.new) }
    {
        let label = Label::of(digests);
        match write_header(disk, digests) {
            Ok(()) => {
                self.state = JournalState::Begun { label };
                Ok(())
            }
            Err(Failed) => {
                self.state = JournalState::BeginFailed { label };
                Err(DiskFault)
            }
        }
    }

    // Adds an event for which there is room, and its stamp where it is a command.
    fn push(&mut self, event: Event, stamp: u64)
        requires room { 0 < room_of self.old }
        requires takes { IsTrue (takes_events (state_of self.old)) }
        ensures list { list_of self.new ≡ list_of self.old ++ event ∷ [] }
        ensures stamps { stamps_held self.new ≡ stamps_held self.old ++ command_stamp event stamp }
        ensures room { room_of self.new + 1 ≡ room_of self.old }
        ensures state { state_of self.new ≡ state_of self.old }
    {
        push_within(&mut self.events, event);
        if let Event::Command { .. } = event {
            push_within(&mut self.stamps, stamp);
        }
        self.room -= 1;
    }

    /// Adds an event, with this stamp where it is a command. After an `Ok` each image that a crash may
    /// leave has it: its record and the closed gate behind it are written, 33 bytes, and no others. After
    /// a fault the disk has the list with the event or without, and each later call fails and does nothing
    /// until the file is opened again. What was acknowledged before stays throughout. It takes no memory.
    pub fn append<D: Disk>(
        &mut self,
        disk: &mut D,
        event: Event,
        stamp: u64,
    ) -> Result<Receipt, AppendFail>
        requires takes { IsTrue (takes_events (state_of self.old)) }
        requires room { 0 < room_of self.old }
        requires spelled { IsTrue (has_record event) }
        requires on { IsOn self.old (D.state disk.old) }

        ensures on { IsOn self.new (D.state disk.new) }

        // What was acknowledged.
        ensures appended { OnOk result (list_of self.new ≡ list_of self.old ++ event ∷ []) }
        ensures stamped { OnOk result (stamps_held self.new
            ≡ stamps_held self.old ++ command_stamp event stamp) }
        ensures number { IfOk result (λ receipt. number_of receipt ≡ length (list_of self.new)) }
        ensures event { IfOk result (λ receipt. event_of receipt ≡ event) }
        ensures state { OnOk result (state_of self.new ≡ state_of self.old) }
        ensures room { OnOk result (room_of self.new + 1 ≡ room_of self.old) }

        ensures acknowledged { IfOk result (λ receipt. IsAcknowledged receipt self.new
            (D.state disk.new)) }
        ensures written { OnOk result (HasAppended event stamp (length (list_of self.old))
            (D.state disk.old) (D.state disk.new)) }

        // A fault.
        ensures fault { IsErrOf result AppendFail.DiskFault
            → Rose (D.state disk.old).faults (D.state disk.new).faults }
        ensures faulted { IsErrOf result AppendFail.DiskFault
            → state_of self.new ≡ after_fault event stamp (state_of self.old) }
        ensures list { OnErr result (list_of self.new ≡ list_of self.old) }
        ensures stamps { OnErr result (stamps_held self.new ≡ stamps_held self.old) }
        ensures no_room_taken { OnErr result (room_of self.new ≡ room_of self.old) }

        // After a fault.
        ensures failed { IsErrOf result AppendFail.Failed
            ↔ IsTrue (has_faulted (state_of self.old)) }
        ensures same { IsErrOf result AppendFail.Failed → self.new ≡ self.old }
        ensures untouched { IsErrOf result AppendFail.Failed → disk.new ≡ disk.old }

        // A crash at any moment leaves the list with the event or without.
        ensures survives { LeavesOnly (FitsState (after_fault event stamp (state_of self.old))
            (stamps_held self.old) (list_of self.old)) (D.state disk.old) (D.state disk.new) }
        ensures writes_there { LeavesOnly (TornFrom (D.state disk.old)
            (offset_behind (length (list_of self.old))) (RECORD_BYTES + 1))
            (D.state disk.old) (D.state disk.new) }

        // What was acknowledged before stays.
        ensures stays { (receipt : Acknowledged) → HasReceipt self.old receipt
            → StaysIn receipt self.new (D.state disk.old) (D.state disk.new) }
    {
        let JournalState::Begun { label } = self.state else {
            return Err(AppendFail::Failed);
        };
        let before = self.events.len() as u64;
        let number = before + 1;
        match add_record(
            disk,
            offset_behind(before),
            &record_before_gate(event, stamp),
        ) {
            Ok(()) => {
                self.push(event, stamp);
                Ok(Receipt { number, event })
            }
            Err(Failed) => {
                self.state = JournalState::AppendFailed {
                    label,
                    event,
                    stamp,
                };
                Err(AppendFail::DiskFault)
            }
        }
    }

    /// Brings a journal of version 1 to version 2: it writes a stamp into the record of each command, and
    /// so much of the base digest as a header holds, and then the version. Each image that a crash at any
    /// moment may leave has the journal's list; it is of version 1 as before, or of version 2 with this
    /// base digest and these stamps, and after an `Ok` it is of version 2. No other byte changes. After a fault each later append
    /// fails until the file is opened again. It takes no memory.
    pub fn migrate<D: Disk>(
        &mut self,
        disk: &mut D,
        base: &[u8; 32],
        stamps: &[u64],
    ) -> Result<(), DiskFault>
        requires begun { (label : LabelOf) × (state_of self.old ≡ Begun label)
            × (label.version ≡ One) }
        requires stamps { length stamps.now ≡ length (stamps_held self.old) }
        requires on { IsOn self.old (D.state disk.old) }
        ensures on { IsOn self.new (D.state disk.new) }
        ensures migrated { (label : LabelOf) → state_of self.old ≡ Begun label
            → OnOk result (state_of self.new ≡ Begun (migrated label (take 15 base.now))) }
        ensures written { OnOk result (HasMigrated (list_of self.old) (take 15 base.now) stamps.now
            (D.state disk.old) (D.state disk.new)) }
        ensures failed { (label : LabelOf) → state_of self.old ≡ Begun label
            → OnErr result (state_of self.new ≡ MigrateFailed label (take 15 base.now)) }
        ensures fault { OnErr result (Rose (D.state disk.old).faults (D.state disk.new).faults) }
        ensures list { list_of self.new ≡ list_of self.old }
        ensures stamps { stamps_held self.new ≡ stamps.now }
        ensures room { room_of self.new ≡ room_of self.old }
        ensures survives { (label : LabelOf) → state_of self.old ≡ Begun label
            → LeavesOnly (FitsState (MigrateFailed label (take 15 base.now)) stamps.now
            (list_of self.old)) (D.state disk.old) (D.state disk.new) }
        ensures stays { (receipt : Acknowledged) → HasReceipt self.old receipt
            → StaysIn receipt self.new (D.state disk.old) (D.state disk.new) }
    {
        let JournalState::Begun { label } = self.state else {
            unreachable!();
        };
        let base = base_of(base);
        self.stamps.copy_from_slice(stamps);
        match write_version(disk, &self.events, &base, stamps) {
            Ok(()) => {
                self.state = JournalState::Begun {
                    label: label.migrated(base),
                };
                Ok(())
            }
            Err(Failed) => {
                self.state = JournalState::MigrateFailed { label, base };
                Err(DiskFault)
            }
        }
    }
}

// Adds an item for which there is room.
fn push_within<T: Copy>(items: &mut Vec<T>, item: T)
    requires { vec_len items.old < vec_capacity items.old }
    ensures items { items.new.items ≡ items.old.items ++ item ∷ [] }
    ensures capacity { vec_capacity items.old ≤ vec_capacity items.new }
{
    match items.push(item) {
        Ok(()) => (),
        Err(_) => unreachable!(),
    }
}
