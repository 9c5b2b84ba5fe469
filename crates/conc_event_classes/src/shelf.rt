ghost use Rattle.std.specs.Prelude.{◌≡◌, IfOk, OnOk};
ghost use Rattle.conc_event_classes.specs.Shelf as spec;
ghost use Rattle.conc_event_classes.specs.Shelf.{IsPut, IsShelf};

use conc_types::NoMemory;
use std::alloc::Global;

// How many buckets a shelf has.
const BUCKETS: u64 = 1021;

/// Classes by a key. Those of one key stand in one bucket, beside those of some other keys.
#[derive(Drop)]
pub(crate) struct Shelf {
    buckets: Vec<Vec<u32>>,
}

impl Shelf {
    /// A shelf without classes.
    pub fn new(alloc: Global) -> Result<Shelf, NoMemory>
        ensures { IfOk result IsShelf }
    {
        let mut buckets = Vec::with_capacity(alloc, BUCKETS as usize)?;
        for _ in 0..BUCKETS {
            buckets.push(Vec::new(alloc))?;
        }
        Ok(Shelf { buckets })
    }

    /// Puts a class into the bucket of a key, behind those that are there.
    pub fn put(&mut self, key: u64, class: u32) -> Result<(), NoMemory>
        requires { IsShelf self.old }
        ensures { OnOk result (IsPut self.old self.new key class) }
    {
        let bucket = &mut self.buckets[(key % BUCKETS) as usize];
        bucket.push(class)?;
        Ok(())
    }

    /// The bucket of a key.
    #[tactic(auto, unfolding(crate::specs::Shelf::bucket))]
    pub fn bucket(&self, key: u64) -> &[u32]
        ensures { result.now ≡ spec.bucket self.now key }
    {
        match self.buckets.as_slice().get((key % BUCKETS) as usize) {
            Some(bucket) => bucket.as_slice(),
            None => &[],
        }
    }
}
