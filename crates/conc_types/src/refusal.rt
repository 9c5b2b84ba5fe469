use crate::RefusalKind;

/// Which file is refused. A table is named by its place in the setup's list of tables, from 0.
#[derive(Clone, Copy, Debug, PartialEq, Eq)]
pub enum FileKind {
    Setup,
    Script,
    Clock,
    Table(u32),
    Repeats,
    Parts,
}

/// Why a file is refused: the kind of the rule that it breaks, and the line that breaks it.
/// What a line is depends on the file; 0 is the file as a whole.
#[derive(Clone, Copy, Debug, PartialEq, Eq)]
pub struct Refusal {
    pub file: FileKind,
    pub line: u64,
    pub kind: RefusalKind,
}
