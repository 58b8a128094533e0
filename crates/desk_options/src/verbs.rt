//! What the words ask for.
use ispc_options::Options;

/// A program that is run: the file of its source, that of its input if one is named, and how it is run.
#[derive(Clone, Copy, Debug, PartialEq, Eq)]
pub struct Program<'a> {
    pub source: &'a str,
    pub input: Option<&'a str>,
    pub options: Options<'a>,
}

/// A program that is debugged, and when its text has colours if the words say that.
#[derive(Clone, Copy, Debug, PartialEq, Eq)]
pub struct Debugged<'a> {
    pub program: Program<'a>,
    pub color: Option<&'a str>,
}

/// A picture of a program's run: the file of commands that come first, what is watched, the number of the step that the picture begins
/// with, how many steps are drawn at most, how many of them a row has, the file that is written, and whether it is written over whatever
/// it holds.
#[derive(Clone, Copy, Debug, PartialEq, Eq)]
pub struct Picture<'a> {
    pub program: Program<'a>,
    pub commands: Option<&'a str>,
    pub watch: Option<&'a str>,
    pub from: u32,
    pub most: u32,
    pub row: u32,
    pub to: Option<&'a str>,
    pub force: bool,
}

/// The page of a program's run: the file of commands that come first, the number of the step that the record begins with, how many
/// steps it has at most, one of how many it has, the places round which it has each, how many elements of an array it has, the file that
/// is written, and whether it is written over whatever it holds.
#[derive(Clone, Copy, Debug, PartialEq, Eq)]
pub struct RunPage<'a> {
    pub program: Program<'a>,
    pub commands: Option<&'a str>,
    pub from: u32,
    pub most: u32,
    pub each: u32,
    pub around: Option<&'a str>,
    pub elements: u32,
    pub to: Option<&'a str>,
    pub force: bool,
}

/// The profile of a program's run: the number of the step that the counts begin with, how many steps are done at most, how many rows a
/// table has at most, what its rows are and when the text has colours if the words say that, whether the source is shown with its counts,
/// or JSON, or the shares by gangs of all widths, the file that is written, and whether it is written over whatever it holds.
#[derive(Clone, Copy, Debug, PartialEq, Eq)]
pub struct Profile<'a> {
    pub program: Program<'a>,
    pub from: u32,
    pub most: u32,
    pub top: u32,
    pub by: Option<&'a str>,
    pub color: Option<&'a str>,
    pub annotate: bool,
    pub json: bool,
    pub compare: bool,
    pub to: Option<&'a str>,
    pub force: bool,
}

/// A source that is ported: its file, the file that is written, and whether it is written over whatever it holds.
#[derive(Clone, Copy, Debug, PartialEq, Eq)]
pub struct Ported<'a> {
    pub source: &'a str,
    pub to: Option<&'a str>,
    pub force: bool,
}

/// The words that name a refusal or a fault.
#[derive(Drop)]
pub struct Explained<'a> {
    pub words: Vec<&'a str>,
}

/// What the program is to do.
#[derive(Drop)]
pub enum Verb<'a> {
    Debug(Debugged<'a>),
    Picture(Picture<'a>),
    Page(RunPage<'a>),
    Profile(Profile<'a>),
    Adapter,
    Explain(Explained<'a>),
    Port(Ported<'a>),
}
