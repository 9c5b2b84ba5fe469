/// A program or a set, by its place in the setup's list, from 0.
#[derive(Clone, Copy, Debug, PartialEq, Eq)]
pub enum Item {
    Program(u32),
    Set(u32),
}

/// What an entry of the incompatibilities covers: requests of the other item alone, or also the
/// members of the other item, which is a set.
#[derive(Clone, Copy, Debug, PartialEq, Eq)]
pub enum Scope {
    Program,
    Set,
}

/// Where an entry or a program that runs alone counts: in one conflict domain, or in all.
#[derive(Clone, Copy, Debug, PartialEq, Eq)]
pub enum Reach {
    Domain,
    Global,
}

/// An entry of the incompatibilities: two items whose requests never run at the same time.
#[derive(Clone, Copy, Debug, PartialEq, Eq)]
pub struct Entry {
    pub owner: Item,
    pub other: Item,
    pub scope: Scope,
    pub reach: Reach,
}
