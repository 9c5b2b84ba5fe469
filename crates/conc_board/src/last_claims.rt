use conc_types::{NoMemory, PlaceId, RequestId};
use std::alloc::Global;
use std::sync::atomic::AtomicU64;
use std::sync::atomic::Ordering::SeqCst;

/// For each place the request that was claimed for it last, by its number, and 0 before the first claim. It
/// tells the lead where to look first; the words of the board decide, and the rule knows nothing of it.
#[derive(Drop)]
pub(crate) struct LastClaims {
    numbers: Vec<AtomicU64>,
}

impl LastClaims {
    /// No claim yet, for so many places.
    pub(crate) fn new(alloc: Global, places: usize) -> Result<Self, NoMemory> {
        let mut numbers = Vec::with_capacity(alloc, places)?;
        for _ in 0..places {
            numbers.push(AtomicU64::new(0))?;
        }
        Ok(LastClaims { numbers })
    }

    pub(crate) fn set(&self, place: PlaceId, r: RequestId) {
        if let Some(number) = self.numbers.get(place.index as usize) {
            number.store(u64::from(r.number), SeqCst);
        }
    }

    pub(crate) fn get(&self, place: PlaceId) -> Option<RequestId> {
        let number = self.numbers.get(place.index as usize)?.load(SeqCst);
        match u32::try_from(number) {
            Ok(number) if number > 0 => Some(RequestId { number }),
            _ => None,
        }
    }
}
