ghost use Rattle.std.specs.Prelude.{◌≡◌, Some};
ghost use Rattle.conc_types.specs.declared.error.ReadFail.TheVariants as fail;

use conc_types::ReadFail;

/// Which file is refused.
#[derive(Clone, Copy, Debug, PartialEq, Eq)]
pub enum ChartFile {
    History,
    Plan,
    Script,
}

/// Why a file is refused.
#[derive(Clone, Copy, Debug, PartialEq, Eq)]
pub enum ChartWhy {
    /// A line is no event line, or no line `--` comes.
    NoEventLine,
    /// A line is no line of the table, or not above the line before.
    NoTableLine,
    /// An event names a request that has no line in the table.
    NoSuchRequest,
    /// A request starts that runs.
    RunsAlready,
    /// A request starts at a place where another one runs.
    PlaceTaken,
    /// A request ends that does not run.
    DoesNotRun,
    /// A line is no line of the listing of a plan.
    NoPlanLine,
    /// A record of the script has fewer than two fields.
    NoScriptRecord,
}

/// Which file is refused, at which line, counted from 1, and why.
#[derive(Clone, Copy, Debug, PartialEq, Eq)]
pub struct ChartRefusal {
    pub file: ChartFile,
    pub line: Option<u64>,
    pub why: ChartWhy,
}

/// Why there is no chart.
pub type ChartFail = ReadFail<ChartRefusal>;

impl ChartFile {
    /// The refusal of this file at a line.
    pub fn refused(self, line: u64, why: ChartWhy) -> ChartFail
        ensures { result ≡ fail.Refused (record { file = self; line = Some line; why = why }) }
    {
        ChartFail::Refused(ChartRefusal {
            file: self,
            line: Some(line),
            why,
        })
    }
}

impl ChartWhy {
    ghost use Rattle.conc_show_model.specs.Whys.{why_text};

    /// The words that tell it.
    pub fn text(self) -> &'static [u8]
        ensures { result.now ≡ why_text self }
    {
        match self {
            ChartWhy::NoEventLine => b"no event line",
            ChartWhy::NoTableLine => b"no line of the table",
            ChartWhy::NoSuchRequest => b"no such request",
            ChartWhy::RunsAlready => b"the request runs already",
            ChartWhy::PlaceTaken => b"the place is taken",
            ChartWhy::DoesNotRun => b"the request does not run",
            ChartWhy::NoPlanLine => b"no line of the plan",
            ChartWhy::NoScriptRecord => b"no record of the script",
        }
    }
}
