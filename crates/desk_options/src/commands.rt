//! The option parser's commands: one for each verb, and one that lists them.
ghost use Rattle.std.specs.Prelude.{◌≡◌, IfOk, [], codes, false};
ghost use Rattle.clap.specs.Words.{app_of, new_app, rule_of};
ghost use Rattle.clap.specs.declared.builder.command.Command.TheViews.{out-Command};
ghost use Rattle.ispc_options.specs.Asked.{AreWidths, command_of, option};
ghost use Rattle.desk_options.specs.Commands.{all_verbs, bound_rules, debug_rules, page_rules, picture_rules, profile_rules, program_rules};
ghost use Rattle.desk_options.specs.Commands.{several, verb_command, wanted, with_rules};

use crate::names::VerbName;
use clap::{Arg, ArgAction, Command};
use ispc_options::{flag, option, option_or, up_to, valued, widths};
use std::alloc::{AllocError, Global};

/// The most events of the history, which is what a debugger and a picture keep where the words name no other number.
pub(crate) const MOST_HISTORY: u32 = 65_536;

/// The most moves of one command, and the most steps of a picture.
pub(crate) const MOST_STEPS: u32 = 10_000_000;

/// The most steps of a page.
pub(crate) const MOST_RECORDED: u32 = 1_000_000;

/// The most elements of an array in a page.
pub(crate) const MOST_ELEMENTS: u32 = 65_536;

/// The most rows of a profile's table.
pub(crate) const MOST_ROWS: u32 = 65_536;

const VERSION: &str = "0.1.0";

const DEBUG_ABOUT: &str =
    "Debugs a program, forwards and backwards, by lines that are typed or piped";

const PICTURE_ABOUT: &str = "Draws the run of a program, a track for each lane";

const PAGE_ABOUT: &str = "Writes the run of a program as one HTML page to walk through";

const PROFILE_ABOUT: &str =
    "Tells where lanes are idle: the steps and the lanes of each line or function";

const ADAPTER_ABOUT: &str = "Speaks the Debug Adapter Protocol on standard input and output";

const EXPLAIN_ABOUT: &str = "Says what a refusal or a fault means, with an example and a cure";

const PORT_ABOUT: &str =
    "Rewrites a source for Intel's compiler as one of the language, as far as it can";

/// The list of the verbs, which reads words that begin with none of them.
pub(crate) fn all_verbs<'a>(alloc: Global) -> Result<Command<'a>, AllocError>
    ensures { IfOk result (λ parser. app_of parser ≡ all_verbs) }
{
    Command::new(alloc, "rinddecade")
        .no_binary_name(true)
        .version(VERSION)
        .subcommand_required(true)
        .about("Debugs programs for gangs, forwards and backwards, and draws their runs")
        .after_help("The options of a verb: rinddecade help VERB")
        .subcommand(listed(alloc, "debug", DEBUG_ABOUT))?
        .subcommand(listed(alloc, "picture", PICTURE_ABOUT))?
        .subcommand(listed(alloc, "page", PAGE_ABOUT))?
        .subcommand(listed(alloc, "profile", PROFILE_ABOUT))?
        .subcommand(listed(alloc, "adapter", ADAPTER_ABOUT))?
        .subcommand(listed(alloc, "explain", EXPLAIN_ABOUT))?
        .subcommand(listed(alloc, "port", PORT_ABOUT))
}

/// A verb of the list.
fn listed<'a>(alloc: Global, name: &'a str, about: &'a str) -> Command<'a>
    ensures app { app_of result ≡ new_app name.now }
    ensures local { (out-Command result).has_globals ≡ false }
{
    Command::new(alloc, name).about(about)
}

/// The options of a verb.
pub(crate) fn verb_command<'a>(alloc: Global, verb: VerbName) -> Result<Command<'a>, AllocError>
    ensures { IfOk result (λ parser. (widths : _) × AreWidths widths × (app_of parser ≡ verb_command widths verb)) }
{
    match verb {
        VerbName::Debug => debug_command(alloc),
        VerbName::Picture => picture_command(alloc),
        VerbName::Page => page_command(alloc),
        VerbName::Profile => profile_command(alloc),
        VerbName::Adapter => adapter_command(alloc),
        VerbName::Explain => explain_command(alloc),
        VerbName::Port => port_command(alloc),
    }
}

fn debug_command<'a>(alloc: Global) -> Result<Command<'a>, AllocError>
    ensures { IfOk result (λ parser. (widths : _) × AreWidths widths × (app_of parser ≡ verb_command widths VerbName.Debug)) }
{
    with_color(
        alloc,
        with_program(alloc, named(alloc, "rinddecade debug", DEBUG_ABOUT))?,
    )
}

fn picture_command<'a>(alloc: Global) -> Result<Command<'a>, AllocError>
    ensures { IfOk result (λ parser. (widths : _) × AreWidths widths × (app_of parser ≡ verb_command widths VerbName.Picture)) }
{
    with_picture(
        alloc,
        with_program(alloc, named(alloc, "rinddecade picture", PICTURE_ABOUT))?,
    )
}

fn page_command<'a>(alloc: Global) -> Result<Command<'a>, AllocError>
    ensures { IfOk result (λ parser. (widths : _) × AreWidths widths × (app_of parser ≡ verb_command widths VerbName.Page)) }
{
    with_page(
        alloc,
        with_program(
            alloc,
            with_bound(alloc, named(alloc, "rinddecade page", PAGE_ABOUT))?,
        )?,
    )
}

fn profile_command<'a>(alloc: Global) -> Result<Command<'a>, AllocError>
    ensures { IfOk result (λ parser. (widths : _) × AreWidths widths × (app_of parser ≡ verb_command widths VerbName.Profile)) }
{
    with_profile(
        alloc,
        with_program(alloc, named(alloc, "rinddecade profile", PROFILE_ABOUT))?,
    )
}

fn adapter_command<'a>(alloc: Global) -> Result<Command<'a>, AllocError>
    ensures { IfOk result (λ parser. (widths : _) × AreWidths widths × (app_of parser ≡ verb_command widths VerbName.Adapter)) }
{
    Ok(named(alloc, "rinddecade adapter", ADAPTER_ABOUT))
}

fn explain_command<'a>(alloc: Global) -> Result<Command<'a>, AllocError>
    ensures { IfOk result (λ parser. (widths : _) × AreWidths widths × (app_of parser ≡ verb_command widths VerbName.Explain)) }
{
    named(alloc, "rinddecade explain", EXPLAIN_ABOUT).arg(several(alloc, "name", "NAME").help(
        "a number, as S7, or a name, as Rate; a whole line, as \"3:5: S7 Rate\", will do",
    ))
}

fn port_command<'a>(alloc: Global) -> Result<Command<'a>, AllocError>
    ensures { IfOk result (λ parser. (widths : _) × AreWidths widths × (app_of parser ≡ verb_command widths VerbName.Port)) }
{
    named(alloc, "rinddecade port", PORT_ABOUT)
        .arg(wanted(alloc, "source", "SOURCE").help("the source that is rewritten"))?
        .arg(option(alloc, "to", "FILE").help(
            "the file that is written; else the text goes to standard output",
        ))?
        .arg(flag(alloc, "force").help("writes over the file of --to, whatever it holds"))
}

/// A command that has no options yet. It is named as it is called.
fn named<'a>(alloc: Global, name: &'a str, about: &'a str) -> Command<'a>
    ensures { app_of result ≡ command_of name.now [] }
{
    Command::new(alloc, name).no_binary_name(true).about(about)
}

/// A command with the options of a program that is run. Each is made where it is added, so that none is alive where memory runs out.
fn with_program<'a>(alloc: Global, command: Command<'a>) -> Result<Command<'a>, AllocError>
    ensures { IfOk result (λ parser. (widths : _) × AreWidths widths
        × (app_of parser ≡ with_rules (app_of command.entry) (program_rules widths))) }
{
    command
        .arg(wanted(alloc, "source", "SOURCE").help("the program"))?
        .arg(option(alloc, "input", "FILE").help(
            "the input: a line NAME = VALUES for each parameter of the entry function",
        ))?
        .arg(option(alloc, "entry", "NAME").help(
            "the entry function; else it is the first exported one",
        ))?
        .arg(option_or(alloc, "width", "W", widths(), "4").help("how many lanes a gang has"))?
        .arg(option_or(alloc, "history", "N", up_to(MOST_HISTORY), "65536").help(
            "how many events can be taken back, from 1 to 65536, which debug takes as all",
        ))?
        .arg(option_or(alloc, "steps", "N", up_to(MOST_STEPS), "1000000").help(
            "how many moves one command makes at most, up to 10000000",
        ))
}

/// A command with the option that only a debugger has.
fn with_color<'a>(alloc: Global, command: Command<'a>) -> Result<Command<'a>, AllocError>
    ensures { IfOk result (λ parser. app_of parser ≡ with_rules (app_of command.entry) debug_rules) }
{
    command.arg(when_colored(alloc))
}

/// The option that says when a text has colours.
fn when_colored<'a>(alloc: Global) -> Arg<'a>
    ensures { (rule_of result ≡ option (codes "color")) × (result.global ≡ false) }
{
    option(alloc, "color", "WHEN").help(
        "when the text has colours, auto on a terminal without NO_COLOR [default: auto] [possible values: auto, always, never]",
    )
}

/// A command with the options that only a picture has.
fn with_picture<'a>(alloc: Global, command: Command<'a>) -> Result<Command<'a>, AllocError>
    ensures { IfOk result (λ parser. app_of parser ≡ with_rules (app_of command.entry) picture_rules) }
{
    command
        .arg(option(alloc, "commands", "FILE").help(
            "command lines that are done first, as for ispc_cli",
        ))?
        .arg(option(alloc, "watch", "T").help(
            "a variable, or a lane or an element of one as \"x[2]\", whose values are shown",
        ))?
        .arg(option_or(alloc, "from", "N", up_to(MOST_STEPS), "1").help(
            "the step that the picture begins with",
        ))?
        .arg(option_or(alloc, "most", "N", up_to(MOST_STEPS), "400").help(
            "how many steps are drawn at most",
        ))?
        .arg(option_or(alloc, "row", "N", up_to(MOST_STEPS), "60").help(
            "how many steps a row has; what follows stands in rows below",
        ))?
        .arg(option(alloc, "to", "FILE").help(
            "the file that is written, a page where its name ends with .html; else an SVG goes to standard output",
        ))?
        .arg(flag(alloc, "force").help(
            "writes over the file of --to, whatever it holds; else only over a picture",
        ))
}

/// A command with the option that bounds a page, which stands first in its help.
fn with_bound<'a>(alloc: Global, command: Command<'a>) -> Result<Command<'a>, AllocError>
    ensures { IfOk result (λ parser. app_of parser ≡ with_rules (app_of command.entry) bound_rules) }
{
    command.arg(option_or(alloc, "most", "N", up_to(MOST_RECORDED), "100000").help(
        "how many steps the page has at most, up to 1000000; each takes some hundred bytes of memory and of the file",
    ))
}

/// A command with the other options that only a page has.
fn with_page<'a>(alloc: Global, command: Command<'a>) -> Result<Command<'a>, AllocError>
    ensures { IfOk result (λ parser. app_of parser ≡ with_rules (app_of command.entry) page_rules) }
{
    command
        .arg(option(alloc, "commands", "FILE").help(
            "command lines that are done first, as for ispc_cli",
        ))?
        .arg(option_or(alloc, "from", "N", up_to(MOST_STEPS), "1").help(
            "the step that the page begins with",
        ))?
        .arg(option_or(alloc, "each", "N", up_to(MOST_RECORDED), "1").help(
            "one of how many steps the page has, up to 1000000",
        ))?
        .arg(option(alloc, "around", "N,..").help(
            "steps, 16 at most, around which the page has each step with --each, 1000 before and behind",
        ))?
        .arg(option_or(alloc, "elements", "N", up_to(MOST_ELEMENTS), "1024").help(
            "how many elements of an array are shown at most, up to 65536",
        ))?
        .arg(option(alloc, "to", "FILE").help(
            "the file that is written; else the page goes to standard output",
        ))?
        .arg(flag(alloc, "force").help(
            "writes over the file of --to, whatever it holds; else only over a page of a run",
        ))
}

/// A command with the options that only a profile has.
fn with_profile<'a>(alloc: Global, command: Command<'a>) -> Result<Command<'a>, AllocError>
    ensures { IfOk result (λ parser. app_of parser ≡ with_rules (app_of command.entry) profile_rules) }
{
    command
        .arg(option_or(alloc, "from", "N", up_to(MOST_STEPS), "1").help(
            "the first step that is counted",
        ))?
        .arg(option_or(alloc, "most", "N", up_to(MOST_STEPS), "10000000").help(
            "how many steps are done at most",
        ))?
        .arg(option_or(alloc, "top", "N", up_to(MOST_ROWS), "20").help(
            "how many rows the table has at most, up to 65536",
        ))?
        .arg(option(alloc, "by", "WHAT").help(
            "what the rows of the table are [default: line] [possible values: line, function, form, access, parting]",
        ))?
        .arg(when_colored(alloc))?
        .arg(flag(alloc, "annotate").help(
            "shows the source in place of the table, with the counts of each line before it",
        ))?
        .arg(flag(alloc, "json").help("writes all counts as JSON in place of the table"))?
        .arg(flag(alloc, "compare").help(
            "runs gangs of 4, 8 and 16 lanes, and shows each line's shares side by side",
        ))?
        .arg(option(alloc, "to", "FILE").help(
            "the file that is written; else the text goes to standard output",
        ))?
        .arg(flag(alloc, "force").help("writes over the file of --to, whatever it holds"))
}

fn wanted<'a>(alloc: Global, id: &'a str, value: &'a str) -> Arg<'a>
    ensures { (rule_of result ≡ wanted id.now) × (result.global ≡ false) }
{
    valued(alloc, id, value)
        .required(true)
        .action(ArgAction::Set)
}

fn several<'a>(alloc: Global, id: &'a str, value: &'a str) -> Arg<'a>
    ensures { (rule_of result ≡ several id.now) × (result.global ≡ false) }
{
    valued(alloc, id, value).required(true).num_args(1..)
}
