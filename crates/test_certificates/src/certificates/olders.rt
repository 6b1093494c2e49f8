//! Older certificates, from whose cuts or values a search may begin.

use super::checks::place;
use super::names::text_in;
use cert_checker::{Ending, Tested, check_cuts, read_tested};
use cert_format::{Certificate, read_cert};
use hub_model::Instance;
use std::alloc::Global;
use std::io;
use std::thread::Threads;
use warm_start::first_values;

/// The verdict on the text as an older certificate, by its cuts, and by its size alone. For a certificate, also the
/// first fault of its cuts.
pub fn older<R: Print + Threads + Sync>(
    rt: &R,
    alloc: Global,
    instance: &Instance,
    text: &str,
) -> io::Result<()> {
    tell(
        rt,
        "  by cuts",
        &read_tested(rt, alloc, instance, Tested::Cuts, text.as_bytes())?,
    )?;
    tell(
        rt,
        "  by size",
        &read_tested(rt, alloc, instance, Tested::Size, text.as_bytes())?,
    )?;
    match read_cert(alloc, text.as_bytes()) {
        Ok(certificate) => tried(rt, alloc, instance, &certificate),
        Err(_) => Ok(()),
    }
}

fn tried<R: Print + Threads + Sync>(
    rt: &R,
    alloc: Global,
    instance: &Instance,
    certificate: &Certificate,
) -> io::Result<()> {
    match check_cuts(rt, alloc, instance, certificate)? {
        Some((kind, line)) => {
            let name = kind.name();
            println!(rt; "  tried: {name} in line {line}")
        }
        None => println!(rt; "  tried: no fault"),
    }
}

fn tell(rt: &impl Print, of: &str, older: &Result<Certificate, Ending>) -> io::Result<()> {
    match older {
        Ok(certificate) => {
            let cuts = certificate.cuts().len();
            println!(rt; "{of}: serves, with {cuts} cuts")
        }
        Err(ending) => {
            let (word, line) = place(ending);
            println!(rt; "{of}: {word} in line {line}")
        }
    }
}

/// The dual values of the candidates from the cuts of the text, in a unit.
pub fn values(
    rt: &impl Print,
    alloc: Global,
    instance: &Instance,
    kept: &str,
    rest: &str,
) -> io::Result<()> {
    let (unit, rest) = rest.split_once(' ').unwrap_or((rest, ""));
    let text = text_in(alloc, kept, rest)?;
    match read_cert(alloc, text.as_bytes()) {
        Ok(certificate) => {
            let unit = unit.parse().unwrap_or(1);
            let values = first_values(alloc, instance, certificate.cuts(), unit)?;
            println!(rt; "  {values:?}")
        }
        Err(fault) => println!(rt; "  read: {fault}"),
    }
}
