//! The command line as clap defines it, and its parse.

ghost use Rattle.std.specs.Prelude.{◌≡◌, codes, false, fold, IfOk, option_and_then};
ghost use Rattle.clap.specs.Words.{app_of, new_app, rule_of, subcommand_rows_of};
ghost use Rattle.hub_words.specs.Hub.{bare, certificate_app, demo_app, flag_rule, hub, instance_words, make_app, optimize_app, option_rule, resolve_app, solve_app, with_choice, with_gap, with_instance, with_making, with_format, with_option, with_search, with_word, word_rule};
ghost use Rattle.hub_words.specs.Parses.{Spells, parsed};
ghost use Rattle.hub_words.specs.Views.{texts};
ghost use Rattle.clap.specs.Simple.{on_top};
ghost use Rattle.clap.specs.declared.builder.command.Command.TheViews.{out-Command};

use clap::error::ErrorKind;
use clap::{Arg, ArgAction, ArgMatches, Command};
use std::alloc::{AllocError, Global};

/// The instance options that take a value.
static OPTIONS: [&str; 11] = [
    "order",
    "tail",
    "divide",
    "collect",
    "trunk",
    "deliver",
    "fixed",
    "costs",
    "candidates",
    "max-length",
    "hubs",
];

/// The options of a search.
static SEARCH_OPTIONS: [&str; 2] = ["nodes", "workers"];

fn word<'a>(alloc: Global, name: &'a str) -> Arg<'a>
    ensures rule { rule_of result ≡ word_rule name.entry.now }
    ensures local { result.global ≡ false }
{
    Arg::new(alloc, name).required(true)
}

fn option<'a>(alloc: Global, name: &'a str) -> Arg<'a>
    ensures rule { rule_of result ≡ option_rule name.entry.now }
    ensures local { result.global ≡ false }
{
    Arg::new(alloc, name).long(name)
}

fn flag<'a>(alloc: Global, name: &'a str) -> Arg<'a>
    ensures rule { rule_of result ≡ flag_rule name.entry.now }
    ensures local { result.global ≡ false }
{
    Arg::new(alloc, name).long(name).action(ArgAction::SetTrue)
}

fn plain<'a>(alloc: Global, name: &'a str) -> Command<'a>
    ensures { Spells (new_app name.entry.now) result }
{
    Command::new(alloc, name)
}

/// The command without help and version, of which a subcommand must be named.
fn without_help<'a>(command: Command<'a>) -> Command<'a>
    requires { (out-Command command).has_globals ≡ false }
    ensures { Spells (on_top bare (app_of command.entry)) result }
{
    command
        .disable_help_flag(true)
        .disable_help_subcommand(true)
        .disable_version_flag(true)
        .subcommand_required(true)
}

/// The command that takes a layout, an instance file and the instance options as well.
fn instance_command<'a>(alloc: Global, command: Command<'a>) -> Result<Command<'a>, AllocError>
    requires { (out-Command command).has_globals ≡ false }
    ensures { IfOk result (Spells (with_instance (app_of command.entry))) }
{
    let named = with_words(alloc, command)?;
    let optional = with_options(alloc, named, OPTIONS.as_slice())?;
    optional.arg(flag(alloc, "no-self"))
}

fn with_words<'a>(alloc: Global, command: Command<'a>) -> Result<Command<'a>, AllocError>
    requires { (out-Command command).has_globals ≡ false }
    ensures { IfOk result (Spells (fold with_word (app_of command.entry) instance_words)) }
{
    let with_layout = command.arg(word(alloc, "layout"))?;
    with_layout.arg(word(alloc, "file"))
}

fn with_options<'a>(
    alloc: Global,
    mut command: Command<'a>,
    names: &[&'a str],
) -> Result<Command<'a>, AllocError>
    requires { (out-Command command).has_globals ≡ false }
    ensures { IfOk result (Spells (fold (λ app name. with_option app name.now) (app_of command.entry) names.now)) }
{
    for name in names {
        command = command.arg(option(alloc, name))?;
    }
    Ok(command)
}

/// The command that takes the options of a search as well.
fn search_command<'a>(alloc: Global, command: Command<'a>) -> Result<Command<'a>, AllocError>
    requires { (out-Command command).has_globals ≡ false }
    ensures { IfOk result (Spells (with_search (app_of command.entry))) }
{
    with_options(alloc, command, SEARCH_OPTIONS.as_slice())
}

/// The command that takes the version of the certificate's text as well.
fn format_command<'a>(alloc: Global, command: Command<'a>) -> Result<Command<'a>, AllocError>
    requires { (out-Command command).has_globals ≡ false }
    ensures { IfOk result (Spells (with_format (app_of command.entry))) }
{
    command.arg(option(alloc, "format"))
}

/// The command that takes the rule of the search and the kind of its cuts as well.
fn choice_command<'a>(alloc: Global, command: Command<'a>) -> Result<Command<'a>, AllocError>
    requires { (out-Command command).has_globals ≡ false }
    ensures { IfOk result (Spells (with_choice (app_of command.entry))) }
{
    let with_rule = command.arg(option(alloc, "rule"))?;
    with_rule.arg(option(alloc, "cuts"))
}

/// The command that takes a gap between the bound and the cost, and an older certificate, as well.
fn gap_command<'a>(alloc: Global, command: Command<'a>) -> Result<Command<'a>, AllocError>
    requires { (out-Command command).has_globals ≡ false }
    ensures { IfOk result (Spells (with_gap (app_of command.entry))) }
{
    let with_gap = command.arg(option(alloc, "gap"))?;
    with_gap.arg(option(alloc, "from"))
}

/// The command that takes a seed and a number of nodes as well.
fn making_command<'a>(alloc: Global, command: Command<'a>) -> Result<Command<'a>, AllocError>
    requires { (out-Command command).has_globals ≡ false }
    ensures { IfOk result (Spells (with_making (app_of command.entry))) }
{
    let with_seed = command.arg(word(alloc, "seed"))?;
    with_seed.arg(word(alloc, "size"))
}

fn solve_command<'a>(alloc: Global) -> Result<Command<'a>, AllocError>
    ensures { IfOk result (Spells solve_app) }
{
    let command = instance_command(alloc, plain(alloc, "solve"))?;
    let with_format = format_command(alloc, search_command(alloc, command)?)?;
    choice_command(alloc, with_format)
}

fn optimize_command<'a>(alloc: Global) -> Result<Command<'a>, AllocError>
    ensures { IfOk result (Spells optimize_app) }
{
    let command = instance_command(alloc, plain(alloc, "optimize"))?;
    let with_format = format_command(alloc, search_command(alloc, command)?)?;
    gap_command(alloc, with_format)
}

fn resolve_command<'a>(alloc: Global) -> Result<Command<'a>, AllocError>
    ensures { IfOk result (Spells resolve_app) }
{
    let command = instance_command(alloc, plain(alloc, "resolve"))?;
    search_command(alloc, command.arg(word(alloc, "older"))?)
}

/// The subcommand of this name, which takes an instance and a certificate.
fn certificate_command<'a>(alloc: Global, name: &'a str) -> Result<Command<'a>, AllocError>
    ensures { IfOk result (Spells (certificate_app name.entry.now)) }
{
    let command = instance_command(alloc, plain(alloc, name))?;
    command.arg(word(alloc, "certificate"))
}

fn make_command<'a>(alloc: Global) -> Result<Command<'a>, AllocError>
    ensures { IfOk result (Spells make_app) }
{
    making_command(alloc, plain(alloc, "make"))
}

fn demo_command<'a>(alloc: Global) -> Result<Command<'a>, AllocError>
    ensures { IfOk result (Spells demo_app) }
{
    let command = making_command(alloc, plain(alloc, "demo"))?;
    search_command(alloc, command)
}

/// `hub`, as yet without subcommands.
fn bare_command<'a>(alloc: Global) -> Command<'a>
    ensures { Spells (on_top bare (new_app (codes "hub"))) result }
{
    without_help(plain(alloc, "hub"))
}

fn hub_command<'a>(alloc: Global) -> Result<Command<'a>, AllocError>
    ensures { IfOk result (Spells hub) }
{
    let with_solve = bare_command(alloc).subcommand(solve_command(alloc)?)?;
    let with_optimize = with_solve.subcommand(optimize_command(alloc)?)?;
    let with_resolve = with_optimize.subcommand(resolve_command(alloc)?)?;
    let with_check = with_resolve.subcommand(certificate_command(alloc, "check")?)?;
    let with_report = with_check.subcommand(certificate_command(alloc, "report")?)?;
    let with_make = with_report.subcommand(make_command(alloc)?)?;
    with_make.subcommand(demo_command(alloc)?)
}

/// What clap finds in the words, of which the first is the program's name; none where it refuses them.
pub(crate) fn parse<'a>(
    alloc: Global,
    words: &'a [String],
) -> Result<Option<ArgMatches<'a>>, AllocError>
    ensures { IfOk result (λ found. option_and_then subcommand_rows_of found ≡ parsed (texts words.entry.now)) }
{
    let command = hub_command(alloc)?;
    match command.try_get_matches_from(words) {
        Ok(found) => Ok(Some(found)),
        Err(error) => match error.kind() {
            ErrorKind::OutOfMemory => Err(AllocError),
            _ => Ok(None),
        },
    }
}
