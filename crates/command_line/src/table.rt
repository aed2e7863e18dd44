ghost use Rattle.std.specs.Prelude.{◌≡◌, map, option_map};
ghost use Rattle.command_line.specs.Table as words;
ghost use Rattle.command_line.specs.Table.{seen, table, row_of};

// The most indexes of a command.
const MOST: usize = 64;

// What a command of the program does.
#[derive(Clone, Copy, Debug, PartialEq, Eq)]
pub(crate) enum Verb {
    Build,
    Query,
    Answer,
    Inspect,
    Generate,
    Migrate,
    Audit,
    Blocks,
    BlockQuery,
    Remap,
    Segments,
    Pack,
    Repack,
    Export,
    IntervalQuery,
    Merge,
}

// An option that may stand behind the texts of a command.
#[derive(Clone, Copy, Debug, PartialEq, Eq)]
pub(crate) enum Choice {
    Format,
    Plan,
}

impl Choice {
    // Its name, behind two minus signs.
    pub(crate) fn name<'a>(self) -> &'a str
        ensures { result.now ≡ words.name_of self }
    {
        match self {
            Choice::Format => "format",
            Choice::Plan => "plan",
        }
    }

    // The value that it has where it is not there.
    pub(crate) fn default<'a>(self) -> &'a str
        ensures { result.now ≡ words.default_of self }
    {
        match self {
            Choice::Format => "2",
            Choice::Plan => "exhaustive",
        }
    }
}

// The words of a command: its verb, how many texts stand behind it, and which option may stand
// behind them.
#[derive(Clone, Copy, Debug, PartialEq, Eq)]
pub(crate) struct Row {
    pub(crate) name: &'static str,
    pub(crate) verb: Verb,
    pub(crate) fewest: usize,
    pub(crate) most: usize,
    pub(crate) choice: Option<Choice>,
}

// The words of each command.
fn rows() -> [Row; 16]
    ensures { map seen result ≡ table }
{
    [
        texts("build", Verb::Build, 2, Some(Choice::Format)),
        texts("query", Verb::Query, 1, Some(Choice::Plan)),
        texts("answer", Verb::Answer, 1, Some(Choice::Plan)),
        texts("inspect", Verb::Inspect, 1, None),
        texts("generate", Verb::Generate, 3, None),
        texts("migrate", Verb::Migrate, 2, None),
        texts("audit", Verb::Audit, 1, None),
        texts("blocks", Verb::Blocks, 2, None),
        texts("bquery", Verb::BlockQuery, 2, None),
        texts("remap", Verb::Remap, 3, None),
        Row {
            most: MOST,
            ..texts("segments", Verb::Segments, 1, Some(Choice::Plan))
        },
        texts("pack", Verb::Pack, 2, None),
        texts("repack", Verb::Repack, 2, None),
        texts("export", Verb::Export, 2, None),
        texts("iquery", Verb::IntervalQuery, 1, None),
        Row {
            most: MOST + 1,
            ..texts("merge", Verb::Merge, 2, None)
        },
    ]
}

// So many texts behind a verb, and an option or none.
fn texts(name: &'static str, verb: Verb, count: usize, choice: Option<Choice>) -> Row
    ensures { seen result ≡ words.texts name.now verb count choice }
{
    Row {
        name,
        verb,
        fewest: count,
        most: count,
        choice,
    }
}

// The words of the command with this verb.
pub(crate) fn row_of(name: &str) -> Option<Row>
    ensures { option_map seen result ≡ row_of name.now }
{
    rows().iter().find(|row| row.name == name).copied()
}
