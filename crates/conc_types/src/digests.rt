/// The two digests of a run's input.
#[derive(Clone, Copy, Debug, PartialEq, Eq)]
pub struct Digests {
    /// Of the setup, the script and the tables.
    pub full: [u8; 32],
    /// Of the setup and the tables.
    pub base: [u8; 32],
}
