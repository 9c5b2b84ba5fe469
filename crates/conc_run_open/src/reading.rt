ghost use Rattle.std.specs.Prelude.{◌≡◌, ℕ, ◌++◌, replicate, IfErr, IfOk, IfSome, MatchOption, None, OnOk, Option};
ghost use Rattle.conc_disk.specs.Disk.{Reaches, Stays};
ghost use Rattle.conc_disk.specs.Left.{LeavesOnly};
ghost use Rattle.conc_journal.specs.Journals.{list_of, room_of, stamps_held};
ghost use Rattle.conc_journal.specs.Journals.{IsOn as JournalIsOn};
ghost use Rattle.conc_journal.specs.Opens.{IsFoundIn};
ghost use Rattle.conc_journal_spool.specs.Spools.{used_of};
ghost use Rattle.conc_journal_spool.specs.Spools.{IsOn as SpoolIsOn};
ghost use Rattle.conc_run_state.specs.Handed.{IsOwnJournal};
ghost use Rattle.conc_run_state.specs.Causes as causes_spec;
ghost use Rattle.conc_run_state.specs.Inputs.{IsOfInput};
ghost use Rattle.conc_run_open.specs.Examined.{MayStart};
ghost use Rattle.conc_run_open.specs.Scripts.{IsNotOfInput};
ghost use Rattle.conc_run_open.specs.Extents.{counted};
ghost use Rattle.conc_run_open.specs.Refusals.{IsUnopened, IsUnreadable};

use crate::extents::count_bytes;
use crate::judging::refuse_short;
use crate::scripts::first_other;
use conc_data_digests::LazyDigests;
use conc_disk::Disk;
use conc_journal::{Journal, Opened};
use conc_journal_image::{Label, Version, base_of};
use conc_journal_spool::{Spool, SpoolFail};
use conc_run_state::{DiskName, HistoryFail};
use conc_types::{Event, Plan};
use std::alloc::Global;

// 15 bytes and 17 bytes that are 0.
fn padded(base: [u8; 15]) -> [u8; 32]
    ensures { result ≡ base ++ replicate 17 0 }
{
    let mut bytes = [0; 32];
    bytes[..15].copy_from_slice(&base);
    bytes
}

// What a label has, in its version, to tell whose input a journal is.
fn told(label: Label) -> [u8; 32]
    ensures { result ≡ causes_spec.told label }
{
    match label.version {
        Version::One => label.digest,
        Version::Two => padded(label.base),
    }
}

// What a label of this version has for this input.
fn told_for(version: Version, digests: &LazyDigests) -> [u8; 32]
    ensures { result ≡ causes_spec.told_for version digests.now }
{
    match version {
        Version::One => digests.full(),
        Version::Two => padded(base_of(&digests.base())),
    }
}

// Why a journal with this label is not that of this input, if it is not.
fn judge_input(
    plan: &Plan,
    digests: &LazyDigests,
    label: Label,
    journal: &Journal,
) -> Option<HistoryFail>
    ensures { MatchOption result
        (IsOfInput plan.now digests.now label (list_of journal.now) (stamps_held journal.now))
        (IsNotOfInput plan.now digests.now label (list_of journal.now) (stamps_held journal.now)) }
{
    let found = told(label);
    let given = told_for(label.version, digests);
    if found != given {
        return Some(HistoryFail::OtherInput { found, given });
    }
    match label.version {
        Version::One => None,
        Version::Two => first_other(plan, journal.events(), journal.stamps()),
    }
}

/// What is found on the disk of a journal, where it is this input's.
pub(crate) fn open_own<D: Disk>(
    alloc: Global,
    plan: &Plan,
    digests: &LazyDigests,
    disk: &mut D,
) -> Result<Opened, HistoryFail>
    ensures found { IfOk result (λ opened. IfSome (D.state disk.old).seen
        (λ image. IsFoundIn image opened)) }
    ensures own { OnOk result (IfSome (D.state disk.old).seen (IsOwnJournal plan.now digests.now)) }
    ensures on { IfOk result (λ opened. opened.broken ≡ None
        → JournalIsOn opened.journal (D.state disk.new)) }
    ensures state { IfOk result (λ opened. opened.broken ≡ None
        → MayStart plan.now digests.now opened.journal) }
    ensures room { IfOk result (λ opened. room_of opened.journal ≡ 0) }
    ensures cause { IfErr result (IsUnopened plan.now digests.now (D.state disk.old) (D.state disk.new)) }
    ensures stays { Stays (D.state disk.old) (D.state disk.new) }
    ensures survives { LeavesOnly (D.state disk.old).may_leave (D.state disk.old)
        (D.state disk.new) }
{
    let opened = Journal::open_on(alloc, disk)?;
    match opened.label {
        None => Ok(opened),
        Some(label) => match judge_input(plan, digests, label, &opened.journal) {
            None => Ok(opened),
            Some(fail) => Err(fail),
        },
    }
}

/// The spool of these events, where it has the bytes of all extents.
pub(crate) fn open_texts<E: Disk>(
    alloc: Global,
    plan: &Plan,
    events: &[Event],
    disk: &mut E,
) -> Result<Spool, HistoryFail>
    ensures on { IfOk result (λ spool. SpoolIsOn spool (E.state disk.new)) }
    ensures used { IfOk result (λ spool. used_of spool ≡ counted events.now) }
    ensures long { OnOk result (Reaches (E.state disk.old) (counted events.now)) }
    ensures unreadable { (broken : Option ℕ)
        → IfErr result (IsUnreadable plan.now events.now broken (E.state disk.old)
        (E.state disk.new)) }
    ensures stays { Stays (E.state disk.old) (E.state disk.new) }
    ensures survives { LeavesOnly (E.state disk.old).may_leave (E.state disk.old)
        (E.state disk.new) }
{
    match Spool::open_on(disk, count_bytes(events)) {
        Ok(spool) => Ok(spool),
        Err(SpoolFail::Short { len }) => Err(refuse_short(alloc, plan, events, len)),
        Err(SpoolFail::DiskFault) => Err(HistoryFail::DiskFault {
            disk: DiskName::Spool,
        }),
    }
}
