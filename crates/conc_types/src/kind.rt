/// The kind of the rule that a refused file breaks. Each has the number that is shown for it.
#[derive(Clone, Copy, Debug, PartialEq, Eq)]
pub enum RefusalKind {
    /// A setup file that is not TOML.
    NotToml = 1,
    /// A key that its table does not list.
    UnknownKey = 2,
    /// A key that has to be there and is not, or a rule that names nothing.
    Missing = 3,
    /// A value of another TOML type than the one that is listed.
    WrongKind = 4,
    /// A name that an earlier thing of its kind has, or a table that stands twice.
    Duplicate = 5,
    /// A name of a program, a set or a stage that is not there.
    UnknownName = 6,
    /// A number, a text, a name or a word outside what is listed, or an array of too few items.
    OutOfRange = 7,
    /// A date, times or days that make no shift.
    BadShift = 8,
    /// A link that does not lead to a later stage.
    BackLink = 9,
    /// More of a setup's things than a limit allows, or a setup file of too many bytes.
    TooMany = 10,
    /// A script's record that is not eight fields of UTF-8, or a first one that is not the header.
    NotCsv = 20,
    /// A command's word that is none of the five.
    UnknownWord = 21,
    /// A field or a reading that is not of its form.
    BadField = 22,
    /// A submission of a program or a set that is not there.
    UnknownItem = 23,
    /// A command on a request that no earlier record enters.
    UnknownRequest = 24,
    /// A command at an earlier moment than the one before it.
    MomentBack = 25,
    /// More commands or readings than a limit allows, or a script or a clock file of too many
    /// bytes.
    TooManyLines = 26,
    /// A reading at an earlier moment than the one before it.
    ClockBack = 27,
    /// A table without a record.
    NoHeader = 30,
    /// A row that is not as long as the header.
    RaggedRow = 31,
    /// Two columns with one name.
    DuplicateColumn = 32,
    /// A table of too many rows, or tables of too many bytes.
    TooLarge = 33,
    /// A program's table that is not one of the setup's.
    UnknownTable = 40,
    /// A column that a program names and its table lacks.
    UnknownColumn = 41,
    /// A command with which there are more requests than a limit allows.
    TooManyRequests = 42,
    /// A table that a program posts to and that is not one of the setup's, or does not have exactly
    /// two columns.
    BadTarget = 43,
    /// A program that posts to a table which an earlier program, or itself, reads or posts to, or
    /// that reads what an earlier one posts to, without an entry of type global that names both.
    NotExclusive = 44,
    /// A record of a file of repeats that does not have nine fields of UTF-8, or a first one that is
    /// not the header.
    NotRepeats = 50,
    /// A field of such a record, other than its unit, that does not have its form.
    BadRepeat = 51,
    /// A unit that is none of the four.
    UnknownUnit = 52,
    /// A series with a moment past the end of the calendar.
    PastEnd = 53,
    /// A record of a file of repeats with which there are more commands than a script can have, or
    /// such a file of too many bytes.
    TooManyCommands = 54,
    /// A record of a file of parts that does not have three fields of UTF-8, or a first one that is
    /// not the header.
    NotParts = 60,
    /// A field of such a record that does not have its form, or such a file of too many bytes.
    BadPart = 61,
    /// A part's program, set or manager that is not there.
    UnknownPart = 62,
    /// A program, a set or a manager that an earlier record lists.
    ListedTwice = 63,
    /// A program, a set or a manager that no record lists.
    NotListed = 64,
    /// A part's number that no record has, below the greatest.
    Gap = 65,
}

impl RefusalKind {
    ghost use Rattle.std.specs.Prelude.{◌≡◌};
    ghost use Rattle.conc_types.specs.RefusalKinds.{lesser_of, number_of};

    /// The number that is shown for the kind.
    pub fn number(self) -> u8
        ensures { result ≡ number_of self }
    {
        self as u8
    }

    /// The one of two kinds that has the lesser number.
    pub fn lesser(self, other: Self) -> Self
        ensures { result ≡ lesser_of self other }
    {
        if self.number() <= other.number() {
            self
        } else {
            other
        }
    }
}
