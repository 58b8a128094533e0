//! The arguments of a command, and the values that they take.
ghost use Rattle.std.specs.Prelude.{◌≡◌, false};
ghost use Rattle.clap.specs.Words.{rule_of};
ghost use Rattle.ispc_options.specs.Asked.{AreWidths, flag, option, option_or, up_to, valued};

use clap::builder::ValueParser;
use clap::{Arg, ArgAction, value_parser};
use std::alloc::Global;

static WIDTHS: [&str; 3] = ["4", "8", "16"];

/// An argument whose value has a name in the help: a word that stands for itself.
pub fn valued<'a>(alloc: Global, id: &'a str, value: &'a str) -> Arg<'a>
    ensures { (rule_of result ≡ valued id.now) × (result.global ≡ false) }
{
    Arg::new(alloc, id).value_name(value)
}

/// `--name VALUE`.
pub fn option<'a>(alloc: Global, name: &'a str, value: &'a str) -> Arg<'a>
    ensures { (rule_of result ≡ option name.now) × (result.global ≡ false) }
{
    valued(alloc, name, value).long(name)
}

/// The same, of the values that a parser takes, and with the value where the words give none.
pub fn option_or<'a>(
    alloc: Global,
    name: &'a str,
    value: &'a str,
    parser: ValueParser<'a>,
    default: &'a str,
) -> Arg<'a>
    ensures { (rule_of result ≡ option_or name.now parser.entry default.now) × (result.global ≡ false) }
{
    option(alloc, name, value)
        .action(ArgAction::Set)
        .value_parser(parser)
        .default_value(default)
}

/// `--name`, which is true where the words have it.
pub fn flag<'a>(alloc: Global, name: &'a str) -> Arg<'a>
    ensures { (rule_of result ≡ flag name.now) × (result.global ≡ false) }
{
    Arg::new(alloc, name)
        .long(name)
        .action(ArgAction::SetTrue)
        .value_parser(value_parser!(bool))
}

/// One of the widths of a gang: 4, 8 or 16.
pub fn widths<'a>() -> ValueParser<'a>
    ensures { (widths : _) × AreWidths widths × (result ≡ ValueParser.Names widths) }
{
    WIDTHS.as_slice().into()
}

/// Whole numbers from 1 to `most`.
pub fn up_to<'a>(most: u32) -> ValueParser<'a>
    ensures { result ≡ up_to most }
{
    ValueParser::signed(1, i64::from(most))
}
