//! The command that the arguments give.

ghost use Rattle.std.specs.Prelude.{◌≡◌, IfOk, IfSome, codes, option_map};
ghost use Rattle.hub_words.specs.Requests.{AreSources, AsksListed, HasOptions, IsGap, IsLawful, IsMaking, IsSearch, IsSolving, gap_of, instance, making_of, search_of, solved};
ghost use Rattle.hub_words.specs.Words as spec;
ghost use Rattle.hub_words.specs.Views.{how_seen, request_of, requested, rows_found, source_of, texts};

use crate::hows::{again, by_rule, freely};
use crate::makings::read_making;
use crate::parsing::parse;
use crate::requests::{Command, How, Source};
use crate::searches::read_search;
use crate::settings::given;
use crate::solvings::solving;
use crate::sources::source;
use cert_scan::Version;
use clap::ArgMatches;
use std::alloc::{AllocError, Global};

/// The command that the arguments give, the first of which is the program's name. `None` where they are no command.
pub fn asked<'a>(alloc: Global, words: &'a [String]) -> Result<Option<Command<'a>>, AllocError>
    ensures command { IfOk result (λ command. requested command ≡ spec.asked (texts words.entry.now)) }
    ensures limits { IfOk result (λ command. IfSome command (λ c. IfSome (instance (request_of c)) HasOptions)) }
    ensures sources { IfOk result (λ command. IfSome command (λ c. IfSome (instance (request_of c)) AreSources)) }
    ensures listed { IfOk result (λ command. IfSome command (λ c. IfSome (instance (request_of c)) AsksListed)) }
    ensures searches { IfOk result (λ command. IfSome command (λ c. IfSome (search_of (request_of c)) IsSearch)) }
    ensures solvings { IfOk result (λ command. IfSome command (λ c. IfSome (solved (request_of c)) IsSolving)) }
    ensures makings { IfOk result (λ command. IfSome command (λ c. IfSome (making_of (request_of c)) IsMaking)) }
{
    let Some(found) = parse(alloc, words)? else {
        return Ok(None);
    };
    match found.subcommand() {
        Some((name, rest)) => request(alloc, name, rest),
        None => Ok(None),
    }
}

/// What the subcommand of this name asks for with what the words give to it.
fn request<'a>(
    alloc: Global,
    name: &str,
    found: &ArgMatches<'a>,
) -> Result<Option<Command<'a>>, AllocError>
    ensures command { IfOk result (λ command. requested command ≡ spec.request_asked name.now (rows_found found.now)) }
    ensures lawful { IfOk result (λ command. IfSome command (λ c. IsLawful (request_of c))) }
{
    if name == "solve" {
        solve(alloc, found, by_rule(found))
    } else if name == "optimize" {
        solve(alloc, found, freely(found))
    } else if name == "resolve" {
        solve(alloc, found, again(found))
    } else if name == "check" {
        check(alloc, found)
    } else if name == "report" {
        report(alloc, found)
    } else if name == "make" {
        Ok(make(found))
    } else if name == "demo" {
        Ok(demo(found))
    } else {
        Ok(None)
    }
}

/// A call to solve the instance that the words name so, if they say how.
fn solve<'a>(
    alloc: Global,
    found: &ArgMatches<'a>,
    how: Option<How<'a>>,
) -> Result<Option<Command<'a>>, AllocError>
    requires gap { IfSome how (λ h. IsGap (gap_of (how_seen h))) }
    ensures command { IfOk result (λ command. requested command ≡ spec.solve_asked (rows_found found.now) (option_map how_seen how.entry)) }
    ensures lawful { IfOk result (λ command. IfSome command (λ c. IsLawful (request_of c))) }
{
    let Some(how) = how else {
        return Ok(None);
    };
    match solving(alloc, found, how)? {
        Some(solving) => Ok(Some(Command::Solve(solving))),
        None => Ok(None),
    }
}

fn check<'a>(alloc: Global, found: &ArgMatches<'a>) -> Result<Option<Command<'a>>, AllocError>
    ensures command { IfOk result (λ command. requested command ≡ spec.check_asked (rows_found found.now)) }
    ensures lawful { IfOk result (λ command. IfSome command (λ c. IsLawful (request_of c))) }
{
    match certificate(alloc, found)? {
        Some((source, certificate)) => Ok(Some(Command::Check(source, certificate))),
        None => Ok(None),
    }
}

fn report<'a>(alloc: Global, found: &ArgMatches<'a>) -> Result<Option<Command<'a>>, AllocError>
    ensures command { IfOk result (λ command. requested command ≡ spec.report_asked (rows_found found.now)) }
    ensures lawful { IfOk result (λ command. IfSome command (λ c. IsLawful (request_of c))) }
{
    match certificate(alloc, found)? {
        Some((source, certificate)) => Ok(Some(Command::Report(source, certificate))),
        None => Ok(None),
    }
}

/// The instance that the words name, and the name of the certificate's file.
fn certificate<'a>(
    alloc: Global,
    found: &ArgMatches<'a>,
) -> Result<Option<(Source<'a>, &'a str)>, AllocError>
    ensures named { IfOk result (λ named. option_map (λ p. (source_of p.0, p.1.now)) named ≡ spec.certificate_asked (rows_found found.now)) }
    ensures limits { IfOk result (λ named. IfSome named (λ p. HasOptions (source_of p.0))) }
    ensures sources { IfOk result (λ named. IfSome named (λ p. AreSources (source_of p.0))) }
    ensures listed { IfOk result (λ named. IfSome named (λ p. AsksListed (source_of p.0))) }
{
    let Some(certificate) = given(found, "certificate") else {
        return Ok(None);
    };
    match source(alloc, found)? {
        Some(source) => Ok(Some((source, certificate))),
        None => Ok(None),
    }
}

fn make<'a>(found: &ArgMatches<'a>) -> Option<Command<'a>>
    ensures command { requested result ≡ spec.make_asked (rows_found found.now) }
    ensures lawful { IfSome result (λ c. IsLawful (request_of c)) }
{
    Some(Command::Make(read_making(found)?))
}

fn demo<'a>(found: &ArgMatches<'a>) -> Option<Command<'a>>
    ensures command { requested result ≡ spec.demo_asked (rows_found found.now) }
    ensures lawful { IfSome result (λ c. IsLawful (request_of c)) }
{
    let search = read_search(found, Version::First)?;
    Some(Command::Demo(read_making(found)?, search))
}
