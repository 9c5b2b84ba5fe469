//! Laws over all bytes. Each function here has an empty body; its contract is the law.
ghost use Rattle.conc_journal_image.specs.Laws.{BasingKeeps, FrontTellsBegun, FrontTellsFound, FrontTellsHeader, FrontTellsLabel, FrontTellsStamps, GateAdds, GateBegins, JournalHasFewEvents, JournalIsLongEnough, JournalStays, NotBegunStays, OpenGateAdds, OpenGateTurns, SpelledHasRecord, SpellingIsUnique, StampingKeeps, StampingStamps, VersionTurns};

// ---- records

/// What is spelled has a record.
pub fn spelled_has_record()
    ensures { SpelledHasRecord }
{}

/// An event has one spelling, and a command one for each stamp.
pub fn spelling_is_unique()
    ensures { SpellingIsUnique }
{}

// ---- images

/// No more than the first bytes of an image tell what it stands for.
pub fn front_tells_all()
    ensures begun { FrontTellsBegun }
    ensures header { FrontTellsHeader }
    ensures label { FrontTellsLabel }
    ensures found { FrontTellsFound }
    ensures stamps { FrontTellsStamps }
{}

/// A journal with n events has at least 64 + 32n + 1 bytes, and at most 1,048,576 events.
pub fn journal_is_long_enough()
    ensures bytes { JournalIsLongEnough }
    ensures events { JournalHasFewEvents }
{}

// ---- stops

/// While a journal is begun, the bytes behind its closed gate may be anything.
pub fn not_begun_stays()
    ensures { NotBegunStays }
{}

/// With the header behind the gate no journal is begun, or one without events, whatever the gate is.
pub fn gate_begins()
    ensures { GateBegins }
{}

/// A journal stays the same while the bytes behind its last gate change.
pub fn journal_stays()
    ensures { JournalStays }
{}

/// With the next record behind the last gate a journal has its events, or the next one too, whatever the
/// gate is. With the gate open it has the next one.
pub fn gate_adds()
    ensures either { GateAdds }
    ensures opened { OpenGateAdds }
{}

// ---- from version 1 to version 2

/// A journal of version 1 stays the same while the bytes change in which a command of it has its stamp.
pub fn stamping_keeps()
    ensures { StampingKeeps }
{}

/// With a stamp written there, the command has it, and the commands before it have theirs.
pub fn stamping_stamps()
    ensures { StampingStamps }
{}

/// A journal of version 1 stays the same while the bytes change in which version 2 has the base digest.
pub fn basing_keeps()
    ensures { BasingKeeps }
{}

/// Where the base digest and the stamps stand, it is a journal of version 1, or of version 2 with these,
/// whatever its last gate is. With the gate open it is of version 2.
pub fn version_turns()
    ensures either { VersionTurns }
    ensures turned { OpenGateTurns }
{}
