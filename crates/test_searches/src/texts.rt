//! Texts as a sink in memory takes them.

ghost use Rattle.std.specs.Prelude.{◌≤◌, IsTrue};
ghost use Rattle.cut_pool.specs.Findings.{IsUnlimited, IsProved};

use crate::searches::found_of;
use cert_format::{Version, put_tree, write_cert};
use dual_lender::DualLender;
use hub_io::{Buffer, Failed, MemSink, Partial, Sink};
use hub_model::{Instance, TreeLine};
use proof_text::{Finding, Workers, certificate_of, write_found};
use std::alloc::{AllocError, Global};
use std::thread::Threads;
use test_lines::list;
use value_cuts::CandidateLegs;

// More bytes than any case puts.
const ROOM: usize = 10_000;

/// The lines of a tree.
pub(crate) fn tree_text(alloc: Global, lines: &[TreeLine]) -> Result<String, AllocError> {
    let mut sink = MemSink::new(alloc, ROOM)?;
    let done = put_whole_tree(lines, &mut sink);
    told(alloc, done, &sink)
}

fn put_whole_tree(lines: &[TreeLine], sink: &mut MemSink) -> Result<(), Failed> {
    let mut buffer = Buffer::new();
    put_tree(lines, &mut buffer, sink)?;
    buffer.finish(sink)
}

/// The text of what the search finds, in this version, by so many workers.
pub(crate) fn text<R: Threads + Sync>(
    rt: &R,
    alloc: Global,
    instance: &Instance,
    line: &str,
    version: Version,
    workers: u32,
) -> Result<String, AllocError>
    requires { (1 ≤ workers) × (workers ≤ 64) }
{
    let found = found_of(alloc, instance, line)?;
    let mut sink = MemSink::new(alloc, ROOM)?;
    let workers = Workers {
        rt,
        alloc,
        count: workers,
    };
    let finding = Finding {
        instance,
        found: &found,
        version,
    };
    let done = put_found(&workers, &finding, &mut sink)?;
    told(alloc, done, &sink)
}

/// The same in the first version by one worker, where a put fails.
pub(crate) fn failing<R: Threads + Sync>(
    rt: &R,
    alloc: Global,
    instance: &Instance,
    line: &str,
) -> Result<String, AllocError> {
    let mut failing = Vec::new(alloc);
    if let [call, taken] = list::<u32>(alloc, line, "failing")?.as_slice() {
        failing.push(Partial {
            call: *call as u64,
            taken: *taken as usize,
        })?;
    }
    let found = found_of(alloc, instance, "search all")?;
    let mut sink = MemSink::with_faults(alloc, ROOM, failing)?;
    let one = Workers {
        rt,
        alloc,
        count: 1,
    };
    let finding = Finding {
        instance,
        found: &found,
        version: Version::First,
    };
    let done = put_found(&one, &finding, &mut sink)?;
    told(alloc, done, &sink)
}

fn put_found<R: Threads + Sync>(
    workers: &Workers<R>,
    finding: &Finding<'_>,
    sink: &mut MemSink,
) -> Result<Result<(), Failed>, AllocError>
    requires proved { IsProved finding.now.instance.now finding.now.found.now }
    requires workers { (1 ≤ workers.now.count) × (workers.now.count ≤ 64) }
{
    let tables = CandidateLegs::new(workers.alloc, finding.instance)?;
    let mut lender = DualLender::new(workers.alloc, &tables)?;
    Ok(write_found(workers, finding, &mut lender, sink))
}

/// The text of the certificate that is made of what the search finds, in the first version.
pub(crate) fn made(alloc: Global, instance: &Instance, line: &str) -> Result<String, AllocError> {
    let mut sink = MemSink::new(alloc, ROOM)?;
    let done = put_made(alloc, instance, line, &mut sink)?;
    told(alloc, done, &sink)
}

fn put_made(
    alloc: Global,
    instance: &Instance,
    line: &str,
    sink: &mut MemSink,
) -> Result<Result<(), Failed>, AllocError> {
    let found = found_of(alloc, instance, line)?;
    if !is_unlimited(instance) {
        return Err(AllocError);
    }
    let certificate = certificate_of(alloc, instance, &found, Version::First)?;
    Ok(write_cert(&certificate, sink))
}

// Tells whether neither the length of routes is limited nor a number of hubs wanted, as the first version asks.
fn is_unlimited(instance: &Instance) -> bool
    ensures { IsTrue result → IsUnlimited instance.now }
{
    instance.length_limit().is_none() && instance.wanted().is_none()
}

// What the sink took, and that a put failed, if one did.
fn told(alloc: Global, done: Result<(), Failed>, sink: &MemSink) -> Result<String, AllocError> {
    let text = String::from_utf8_lossy(alloc, sink.taken())?;
    match done {
        Ok(()) => Ok(text),
        Err(Failed) => {
            let faults = sink.faults();
            format!(in alloc; "failed, by {faults}, behind {text}")
        }
    }
}
