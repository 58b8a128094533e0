//! The names of the verbs, and the words behind them.
ghost use Rattle.std.specs.Prelude.{◌≡◌, option_map};
ghost use Rattle.clap.specs.Walk.{texts};
ghost use Rattle.desk_options.specs.Names.{named, named_words};

static HELP: [&str; 1] = ["--help"];

/// A verb by its name.
#[derive(Clone, Copy, Debug, PartialEq, Eq)]
pub(crate) enum VerbName {
    Debug,
    Picture,
    Page,
    Profile,
    Adapter,
    Explain,
    Port,
}

/// The verb that a word names.
pub(crate) fn named(word: &str) -> Option<VerbName>
    ensures { result ≡ named word.now }
{
    if word == "debug" {
        Some(VerbName::Debug)
    } else if word == "picture" {
        Some(VerbName::Picture)
    } else if word == "page" {
        Some(VerbName::Page)
    } else if word == "profile" {
        Some(VerbName::Profile)
    } else if word == "adapter" {
        Some(VerbName::Adapter)
    } else if word == "explain" {
        Some(VerbName::Explain)
    } else if word == "port" {
        Some(VerbName::Port)
    } else {
        None
    }
}

/// The verb that stands first, with the words behind it. Behind `help` it is called for its help.
pub(crate) fn named_words<'a>(words: &'a [&'a str]) -> Option<(VerbName, &'a [&'a str])>
    ensures { option_map (λ p. (p.0, texts p.1.now)) result ≡ named_words (texts words.now) }
{
    match words {
        [first, name] if *first == "help" => Some((named(name)?, HELP.as_slice())),
        [first, rest @ ..] => Some((named(first)?, rest)),
        [] => None,
    }
}
