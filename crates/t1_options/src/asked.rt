//! What a command line requests.

use t1_char::Edition;
use t1_rules::Mask;

/// What a command line requests.
#[derive(Debug, Drop)]
pub enum Request {
    /// A check of fonts with these options.
    Check(Options),
    /// The pages of rules and refusals whose codes these words are. Without a word: a list of all.
    Explain(Vec<String>),
    /// The version, which the program prints.
    Version,
}

/// Which fonts are checked, and how.
#[derive(Debug, Drop)]
pub struct Options {
    /// Whether summary and progress are omitted.
    pub quiet: bool,
    /// The edition of the rule book.
    pub edition: Edition,
    /// Whether words or settings name an edition. Without it: the first one.
    pub names_edition: bool,
    /// The rules whose lines are printed.
    pub rules: Mask,
    /// The codes that `--only` names, in capitals: of rules or their letters.
    pub only: Vec<String>,
    /// The codes that `--except` names, in capitals, and after them those of the rules whose levels `--level` omits.
    pub except: Vec<String>,
    /// The rules whose lines make the status 1.
    pub failing: Mask,
    /// What happens to files of waivers.
    pub waivers: Waivers,
    /// The file of known faults.
    pub known_faults: Baseline,
    /// Files that list fonts and folders, one a line. `-` is standard input.
    pub files_from: Vec<String>,
    /// Patterns of the names of fonts to omit.
    pub exclude: Vec<String>,
    /// The part of the list of fonts to check. Without it: the whole list.
    pub shard: Option<Shard>,
    /// The form of the output, if it is for another program.
    pub form: Option<Format>,
    /// The URL of the page of all rules.
    pub docs: Option<String>,
    /// Whether lines of JSON name fonts of which no line is reported.
    pub clean: bool,
    /// The columns to which a line for each font and rule is cut. Without it: a line for each fault.
    pub columns: Option<u32>,
    /// Whether these lines have colours.
    pub colour: bool,
    /// Whether a line is printed for each fault, whatever `columns` says.
    pub long: bool,
    /// Which reasons are printed.
    pub reasons: Reasons,
    /// Fonts and folders. `-` is standard input.
    pub paths: Vec<String>,
}

/// What happens to the file of waivers beside a font.
#[derive(Clone, Copy, Debug, PartialEq, Eq)]
pub enum Waivers {
    /// It is read.
    Read,
    /// It is ignored.
    LeftAside,
    /// It is written unless there is one. None is read.
    Written,
    /// It is written, also over one that is there. None is read.
    Overwritten,
}

/// Which reasons are printed.
#[derive(Clone, Copy, Debug, PartialEq, Eq)]
pub enum Reasons {
    /// On a terminal that of the first of the lines that are printed as one; else none.
    First,
    /// That of each line, and on a terminal that of the first of those that are printed as one.
    Each,
    /// None.
    LeftOut,
}

/// The file of known faults, by its name.
#[derive(Debug, Drop)]
pub enum Baseline {
    /// No file is named.
    Unnamed,
    /// Only lines beyond the known faults in this file are printed.
    Compared(String),
    /// What is found becomes the known faults in this file.
    Updated(String),
}

/// A part of the list of fonts.
#[derive(Clone, Copy, Debug, PartialEq, Eq)]
pub struct Shard {
    /// Which part, from 1 to `parts`.
    pub part: u32,
    /// How many parts there are, up to 99,999.
    pub parts: u32,
}

/// A form of output for another program.
#[derive(Clone, Copy, Debug, PartialEq, Eq)]
pub enum Format {
    /// One object of JSON a line.
    JsonLines,
    /// A document of SARIF 2.1.0.
    Sarif,
    /// Commands of a workflow of GitHub.
    GitHub,
    /// A document of JUnit's form.
    JUnit,
}
