//! What words can ask for.
ghost use Rattle.std.specs.Prelude.{◌≤◌};
ghost use Rattle.command_line.specs.declared.TheConstants.{MOST_MAX_TABLE, MOST_TRIAL_LINES};
ghost use Rattle.command_line.specs.Short.{lines_of};

/// Where the query's text is.
#[derive(Clone, Copy, Debug, PartialEq, Eq)]
pub enum QuerySource<'a> {
    /// The text itself.
    Given(&'a str),
    /// The name under which it is held. `-` is standard input.
    Named(&'a str),
}

/// The form of the output's lines.
#[derive(Clone, Copy, Debug, PartialEq, Eq)]
pub enum Form {
    /// `x=0-2 y=2-3`
    Spans,
    /// A head of names, and then spans between tabs.
    Table,
    /// An object a line.
    Json,
}

/// What a run is for.
#[derive(Clone, Copy, Debug, PartialEq, Eq)]
pub enum Mode {
    /// A page of the answers on the document.
    Plain,
    /// What the query is, of `--explain`.
    Explain,
    /// A summary of the answers on a made document of so many lines, of `--trial`: at most
    /// `MOST_TRIAL_LINES`.
    Trial(u32),
}

/// What the words ask for.
#[derive(Clone, Copy, Debug, PartialEq, Eq)]
pub struct Request<'a> {
    /// The query, of `-e` or `-q`.
    pub query: QuerySource<'a>,
    /// The document's name, `-` where none is given. `-` is standard input, which `query` then does
    /// not name.
    pub document: &'a str,
    /// The most rows that are written, of `-n`. None where all are.
    pub limit: Option<u64>,
    /// The text of the cursor that the rows follow, of `-a`, which is not yet read. None where the
    /// rows begin at the first, which is so without `-a` and for the word `start`.
    pub after: Option<&'a str>,
    /// The form, of `-f`.
    pub form: Form,
    /// Whether the spans' texts are written too, of `-t`.
    pub texts: bool,
    /// Whether only the positions that some atom touches are read, of `--filter`. The rows are the
    /// same.
    pub filter: bool,
    /// The most that the table and each filter may weigh, of `--max-table`, from 1 to `MOST_MAX_TABLE`.
    /// `DEFAULT_MAX_TABLE` where it is not given.
    pub max_table: u64,
    /// The mode. Where it is not the plain one, none of `-n`, `-a`, `-f`, `-t` and the document is given.
    pub mode: Mode,
    ghost light: { max_table ≤ MOST_MAX_TABLE },
    ghost short: { lines_of mode ≤ MOST_TRIAL_LINES },
}
