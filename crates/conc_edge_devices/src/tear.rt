// What a crash may leave: one image of many.
ghost use Rattle.std.specs.Prelude.{◌≡◌, ◌≤◌, ◌<◌, ◌+◌, ◌^◌, length, drop, take, IfOk, IsTrue, OnOk, vec_len};
ghost use Rattle.conc_disk.specs.Disk.{Shortened, Torn, written};
ghost use Rattle.conc_edge_devices.specs.Grows.{LeavesInCall, seen_in_call};
ghost use Rattle.conc_edge_devices.specs.Trace.{act_fits, ActLeaves, after, after_act, all_fit, begun_in, is_begun, Leaves, is_sync};

use crate::trace::{Act, Change, Trace, put};
use std::alloc::{AllocError, Global};

/// An odd number whose products spread over all bits.
const SPREAD: u64 = 0x9E37_79B9_7F4A_7C15;

/// How much of so many bytes a call reached: nothing at the choice 0, all at 1, else some of them by
/// the choice and the number of the call.
fn reached(choice: u64, number: u64, len: usize) -> usize
    requires { len < 2 ^ 63 }
    ensures within { result ≤ len }
    ensures all { choice ≡ 1 → result ≡ len }
{
    match choice {
        0 => 0,
        1 => len,
        _ => {
            let spread = choice.wrapping_add(number).wrapping_mul(SPREAD) >> 32;
            (spread % (len as u64 + 1)) as usize
        }
    }
}

/// The first bytes as they are, and each other one turned.
fn turned(alloc: Global, bytes: &[u8], kept: usize) -> Result<Vec<u8>, AllocError>
    requires { kept ≤ length bytes.now }
    ensures { IfOk result (λ piece. vec_len piece ≡ length bytes.now) }
{
    let mut piece = bytes.to_vec(alloc)?;
    for byte in &mut piece[kept..] {
        *byte = !*byte;
    }
    Ok(piece)
}

/// A write that a crash cuts off: the first bytes are written, and the others stay or, at an odd
/// choice, are turned. A write past the end of the image does not reach it.
fn tear_write(
    alloc: Global,
    image: &mut Vec<u8>,
    at: usize,
    bytes: &[u8],
    choice: u64,
    number: u64,
) -> Result<(), AllocError>
    ensures torn { OnOk result (Torn at (length bytes.now) image.old.items image.new.items) }
    ensures all { choice ≡ 1 → at ≤ length image.old.items
        → OnOk result (image.new.items ≡ written at bytes.now image.old.items) }
{
    if at > image.len() {
        return Ok(());
    }
    let kept = reached(choice, number, bytes.len());
    if choice > 1 && choice % 2 == 1 {
        let piece = turned(alloc, bytes, kept)?;
        put(image, at, &piece)
    } else {
        put(image, at, &bytes[..kept])
    }
}

/// A cut that a crash cuts off: some of what is past the length is off.
fn tear_cut(image: &mut Vec<u8>, len: usize, choice: u64, number: u64)
    ensures cut { Shortened len image.old.items image.new.items }
    ensures all { choice ≡ 1 → image.new.items ≡ take len image.old.items }
{
    if len < image.len() {
        let past = image.len() - len;
        let off = reached(choice, number, past);
        image.truncate(len + (past - off));
    }
}

/// What a crash may leave of an image after this change, where the given bytes are seen.
fn tear(
    alloc: Global,
    change: &Change,
    seen: &[u8],
    image: &mut Vec<u8>,
    choice: u64,
) -> Result<(), AllocError>
    ensures left { OnOk result (ActLeaves change.now.act seen.now image.old.items image.new.items) }
    ensures all { choice ≡ 1 → image.old.items ≡ seen.now
        → IsTrue (act_fits change.now.act seen.now)
        → OnOk result (image.new.items ≡ after_act change.now.act seen.now) }
{
    match &change.act {
        Act::Write { at, bytes } => tear_write(alloc, image, *at, bytes, choice, change.number),
        Act::Cut { len } => {
            tear_cut(image, *len, choice, change.number);
            Ok(())
        }
        Act::Sync => {
            image.clear();
            image.extend_from_slice(seen)
        }
    }
}

/// Does what the change did.
fn apply(change: &Change, seen: &mut Vec<u8>) -> Result<(), AllocError>
    requires { IsTrue (act_fits change.now.act seen.old.items) }
    ensures { OnOk result (seen.new.items ≡ after_act change.now.act seen.old.items) }
{
    match &change.act {
        Act::Write { at, bytes } => put(seen, *at, bytes),
        Act::Cut { len } => {
            seen.truncate(*len);
            Ok(())
        }
        Act::Sync => Ok(()),
    }
}

/// Whether a crash in the call with this number has the change begun. A sync that is cut off counts
/// for nothing.
fn is_begun(change: &Change, call: u64) -> bool
    ensures { result ≡ is_begun call change.now }
{
    match change.act {
        Act::Sync => change.number < call,
        _ => change.number <= call,
    }
}

/// The changes up to the first that is not begun at a crash in the call with this number.
fn begun(changes: &[Change], call: u64) -> &[Change]
    ensures { result.now ≡ begun_in call changes.now }
{
    let mut count = 0;
    while count < changes.len() && is_begun(&changes[count], call) {
        count += 1;
    }
    &changes[..count]
}

/// One image that a crash may leave after these changes.
fn image_after(
    alloc: Global,
    start: &[u8],
    changes: &[Change],
    choice: u64,
) -> Result<Vec<u8>, AllocError>
    requires { IsTrue (all_fit changes.now start.now) }
    ensures left { IfOk result (λ image. Leaves changes.now start.now start.now image.items) }
    ensures all { choice ≡ 1 → IfOk result (λ image. image.items ≡ after changes.now start.now) }
{
    let mut seen = start.to_vec(alloc)?;
    let mut image = start.to_vec(alloc)?;
    for change in changes {
        tear(alloc, change, &seen, &mut image, choice)?;
        apply(change, &mut seen)?;
    }
    Ok(image)
}

/// One image that a crash in the call with this number may leave.
pub(crate) fn image_in_call(
    alloc: Global,
    trace: &Trace,
    call: u64,
    choice: u64,
) -> Result<Vec<u8>, AllocError>
    ensures left { IfOk result (λ image. LeavesInCall trace.now call image.items) }
    ensures all { choice ≡ 1 → IfOk result (λ image. image.items ≡ seen_in_call trace.now call) }
{
    image_after(alloc, trace.start(), begun(trace.changes(), call), choice)
}
