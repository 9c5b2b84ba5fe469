ghost use Rattle.conc_history_lines.specs.Laws.{EventLinesAreReadBack, EventLinesHaveOneSpelling, LawfulEventsHaveLines, LawfulIsReadBack, LinesAreReadBack, ReadTextsHaveOneSpelling};

/// An event line has one spelling: it is the line that is written for its event.
pub fn event_lines_have_one_spelling()
    ensures { EventLinesHaveOneSpelling }
{}

/// The line that is written for an event is read as this event.
pub fn event_lines_are_read_back()
    ensures { EventLinesAreReadBack }
{}

/// Each event of a lawful history has a line.
pub fn lawful_events_have_lines()
    ensures { LawfulEventsHaveLines }
{}

/// A history is read back from its text, where each of its events has a line; so is a lawful one.
pub fn texts_are_read_back()
    ensures lines { LinesAreReadBack }
    ensures lawful { LawfulIsReadBack }
{}

/// A text that is read without a bad line is the text of the events that are read, as far as the
/// table.
pub fn read_texts_have_one_spelling()
    ensures { ReadTextsHaveOneSpelling }
{}
