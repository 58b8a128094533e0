//! What the words of a command line ask for.

/// How many lanes a gang has.
#[derive(Clone, Copy, Debug, PartialEq, Eq, Drop)]
pub enum Width {
    Four,
    Eight,
    Sixteen,
}

/// What a run is asked for: the lanes of its gang, the most events of its history, the most moves of one command, and the
/// name of the entry function, if one is asked for; or whether the source's lane-pure functions are reported in place of a run.
#[derive(Clone, Copy, Debug, PartialEq, Eq)]
pub struct Options<'a> {
    pub width: Width,
    pub history: u32,
    pub steps: u32,
    pub entry: Option<&'a str>,
    pub lane_pure: bool,
}

/// The files that hold the source and the input, if files hold them.
#[derive(Clone, Copy, Debug, PartialEq, Eq)]
pub struct Paths<'a> {
    pub source: Option<&'a str>,
    pub input: Option<&'a str>,
}
