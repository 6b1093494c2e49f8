//! Reports of certificates that hold.

ghost use Rattle.hub_spec.specs.Certificates.{Holds};

use super::names::{text_in, two_numbers};
use super::sinks::sink;
use cert_checker::{Verdict, check};
use cert_format::{Certificate, read_cert};
use hub_model::Instance;
use std::alloc::Global;
use std::io;
use std::str::from_utf8;
use std::thread::Threads;

/// The verdict on the certificate of the text, and its report where it holds.
pub fn report<R: Print + Threads + Sync>(
    rt: &R,
    alloc: Global,
    instance: &Instance,
    kept: &str,
    rest: &str,
) -> io::Result<()> {
    let (call, count, rest) = two_numbers(rest);
    let text = text_in(alloc, kept, rest)?;
    match read_cert(alloc, text.as_bytes()) {
        Ok(certificate) => judge(rt, alloc, instance, &certificate, call, count),
        Err(fault) => println!(rt; "  read: {fault}"),
    }
}

fn judge<R: Print + Threads + Sync>(
    rt: &R,
    alloc: Global,
    instance: &Instance,
    certificate: &Certificate,
    call: u64,
    count: usize,
) -> io::Result<()> {
    match check(rt, alloc, instance, certificate)? {
        Verdict::Optimal => put(rt, alloc, instance, certificate, "optimal", call, count),
        Verdict::Bounds => put(rt, alloc, instance, certificate, "bounds", call, count),
        Verdict::No { kind, line } => {
            let name = kind.name();
            println!(rt; "  {name} in line {line}")
        }
    }
}

fn put(
    rt: &impl Print,
    alloc: Global,
    instance: &Instance,
    certificate: &Certificate,
    verdict: &str,
    call: u64,
    count: usize,
) -> io::Result<()>
    requires { Holds instance.now certificate.now.proof }
{
    let mut sink = sink(alloc, call, count)?;
    let is_done = network_report::report(instance, certificate, &mut sink).is_ok();
    let faults = sink.faults();
    let taken = from_utf8(sink.taken()).unwrap_or("no text");
    println!(rt; "  {verdict}, done: {is_done}, faults {faults}\n{taken}")
}
