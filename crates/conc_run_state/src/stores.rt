use conc_disk::Disk;

/// The two disks of a run, that of its journal and that of its spool. It only borrows them.
#[derive(Drop)]
pub struct Stores<'s, D: Disk, E: Disk> {
    pub journal: &'s mut D,
    pub spool: &'s mut E,
}
