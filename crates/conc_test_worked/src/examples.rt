/// The files of a call, a history over them, and changes of the history.
#[derive(Clone, Copy)]
pub struct Worked<'a> {
    /// What it is an example of.
    pub shows: &'a str,
    /// The setup, whose one table is `t.csv`.
    pub setup: &'a str,
    /// The script without its header.
    pub records: &'a str,
    /// The clock.
    pub clock: &'a str,
    /// The table `t.csv`.
    pub table: &'a str,
    /// The events, the line `--` and the table of the requests.
    pub history: &'a str,
    /// What the check of the history says.
    pub answer: &'a str,
    /// Lines `LINE | OLD | NEW | ANSWER`: the lines OLD of the history, of which LINE is the first, give
    /// way to the lines NEW, and then the check says ANSWER. `; ` stands between two lines. OLD is `...`
    /// where all lines from LINE on give way, and NEW has `!` behind it where its last line has no LF. A
    /// line with `#` says why, by the rules.
    pub changes: &'a str,
}

/// The example of a text. In `PLAIN` and the others a line `=====` stands between two examples. It has
/// its parts in their order, each behind a line `== PART`, of which the last one has the answer.
pub fn worked_of(text: &str) -> Option<Worked<'_>> {
    let (shows, rest) = text.split_once("\n== setup\n")?;
    let (setup, rest) = rest.split_once("== script\n")?;
    let (records, rest) = rest.split_once("== clock\n")?;
    let (clock, rest) = rest.split_once("== table\n")?;
    let (table, rest) = rest.split_once("== history\n")?;
    let (history, rest) = rest.split_once("== ")?;
    let (answer, changes) = rest.split_once('\n')?;
    Some(Worked {
        shows,
        setup,
        records,
        clock,
        table,
        history,
        answer,
        changes,
    })
}
