ghost use Rattle.std.specs.Prelude.{◌≡◌, length, IfOk};
ghost use Rattle.conc_data_digests.specs.Stamps as spec;

use crate::coding::add_order;
use conc_types::{NoMemory, Order};
use sha2::{Digest, Sha256};
use std::alloc::Global;

// The hash of a command, behind that of the command before it.
fn hash_behind(hash: &[u8; 32], order: &Order) -> [u8; 32]
    ensures { result ≡ spec.hash_behind hash.now order.now }
{
    let mut hasher = Sha256::new();
    hasher.update(hash);
    add_order(&mut hasher, order);
    hasher.finalize()
}

// The number in the first 8 bytes of a hash.
fn stamp_of(hash: &[u8; 32]) -> u64
    ensures { result ≡ spec.stamp_of hash.now }
{
    match hash.split_first_chunk() {
        Some((stamp, _)) => u64::from_be_bytes(*stamp),
        None => unreachable!(),
    }
}

/// The stamps of a script's commands, in order. A stamp is the beginning of a hash over its command and
/// all before it, so two scripts that agree on a command's stamp agree, as far as SHA-256 tells, on the
/// script up to that command.
pub fn stamps_of(alloc: Global, orders: &[Order]) -> Result<Vec<u64>, NoMemory>
    ensures stamps { IfOk result (λ stamps. stamps.items ≡ spec.stamps_of orders.now) }
    ensures count { IfOk result (λ stamps. length stamps.items ≡ length orders.now) }
{
    let mut stamps = Vec::with_capacity(alloc, orders.len())?;
    let mut hash = [0; 32];
    for order in orders {
        hash = hash_behind(&hash, order);
        stamps.push(stamp_of(&hash))?;
    }
    Ok(stamps)
}
