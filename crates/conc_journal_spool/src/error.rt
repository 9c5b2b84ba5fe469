use thiserror::Error;

/// Why a spool is not opened.
#[derive(Clone, Copy, Debug, PartialEq, Eq, Error)]
pub enum SpoolFail {
    #[error("the spool has only {len} bytes")]
    Short { len: u64 },
    #[error("the disk failed")]
    DiskFault,
}
