use conc_edge_devices::MemDisk;

/// The disks of a run, in memory.
#[derive(Drop)]
pub struct Disks {
    pub journal: MemDisk,
    pub spool: MemDisk,
}
