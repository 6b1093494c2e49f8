//! The outcome of a run, and its output.

ghost use Rattle.std.specs.Prelude.{◌≡◌, IfOk, IfErr};
ghost use Rattle.hub_io.specs.Outside.{Puts};
ghost use Rattle.cert_scan.specs.Versions.{version_number};
ghost use Rattle.cut_pool.specs.Findings.{IsProved};
ghost use Rattle.proof_text.specs.Texts.{found_text};
ghost use Rattle.hub_words.specs.Requests.{IsSearch};
ghost use Rattle.hub_words.specs.Views.{search_seen};
ghost use Rattle.hub_top.specs.Texts.{no_network_text, usage_text};
ghost use Rattle.hub_top.specs.Outcomes.{IsTold, WrittenOrLacked, err_text, status_of};
ghost use Rattle.hub_top.specs.Views.{CanBeWritten, IsWritable, answer_status, answer_text, came_to, halted};
ghost use Rattle.hub_commands.specs.Statuses.{finding_status};
ghost use Rattle.hub_commands.specs.declared.status.Status.TheVariants.{Lacking, Usage};

use crate::Status;
use crate::answers::{Answer, put_answer, status_of_answer, status_of_finding};
use crate::texts::{put_fault, put_memory, put_no_network, put_read, put_usage};
use cut_pool::Found;
use dual_lender::DualLender;
use hub_io::{Failed, Sink};
use hub_model::Instance;
use hub_sources::Halt;
use hub_words::Search;
use proof_text::{Finding, Workers, write_found};
use std::alloc::{AllocError, Global};
use std::thread::Threads;
use value_cuts::CandidateLegs;

/// The outcome of a run before it is written.
#[derive(Drop)]
pub enum Settled {
    /// The answer of a command.
    Answered(Answer),
    /// The finding of this search for the instance, to be written as a certificate.
    Found(Instance, Found, Search),
    /// All candidates together are infeasible for the commodity from `i` to `j`.
    NoNetwork { i: u32, j: u32 },
    /// The arguments are no command.
    Usage,
    /// The command has no answer.
    Halted(Halt),
}

/// Writes the outcome of a run: an answer to `out`, or the reason why there is none to `err`. For a certificate it first
/// reserves the memory that makes the duals. Where that memory runs out, the outcome is that memory ran out. Besides, it
/// allocates only for the workers that make a certificate's text, and does without them where memory runs out.
pub fn write<R: Threads + Sync, O: Sink, E: Sink>(
    rt: &R,
    alloc: Global,
    settled: &Settled,
    out: &mut O,
    err: &mut E,
) -> Status
    requires { CanBeWritten settled.now }
    ensures { WrittenOrLacked O.taken O.faults E.taken E.faults out.old out.new err.old err.new result (came_to settled.now) }
{
    match settled {
        Settled::Answered(answer) => write_answer(answer, out),
        Settled::Found(instance, found, search) => {
            match write_certificate(rt, alloc, instance, found, *search, out) {
                Ok(status) => status,
                Err(_) => write_halt(&Halt::Memory, err),
            }
        }
        Settled::NoNetwork { i, j } => write_no_network(*i, *j, err),
        Settled::Usage => write_usage(err),
        Settled::Halted(halt) => write_halt(halt, err),
    }
}

fn write_answer<O: Sink>(answer: &Answer, out: &mut O) -> Status
    requires { IsWritable answer.now }
    ensures { IsTold O.taken O.faults out.old out.new result (answer_status answer.now) (answer_text answer.now) }
{
    match put_answer(answer, out) {
        Ok(()) => status_of_answer(answer),
        Err(_) => Status::Write,
    }
}

/// Reserves the memory that makes the duals of what a search found, and writes the certificate. Where that memory runs
/// out, it writes nothing.
fn write_certificate<R: Threads + Sync, O: Sink>(
    rt: &R,
    alloc: Global,
    instance: &Instance,
    found: &Found,
    search: Search,
    out: &mut O,
) -> Result<Status, AllocError>
    requires proved { IsProved instance.now found.now }
    requires search { IsSearch (search_seen search) }
    ensures text { IfOk result (λ status. IsTold O.taken O.faults out.old out.new status (finding_status found.now)
        (found_text (version_number search.version) instance.now found.now)) }
    ensures nothing { IfErr result (λ lacking. out.new ≡ out.old) }
{
    let tables = CandidateLegs::new(alloc, instance)?;
    let mut lender = DualLender::new(alloc, &tables)?;
    let workers = Workers {
        rt,
        alloc,
        count: search.workers,
    };
    let finding = Finding {
        instance,
        found,
        version: search.version,
    };
    match write_found(&workers, &finding, &mut lender, out) {
        Ok(()) => Ok(status_of_finding(found)),
        Err(_) => Ok(Status::Write),
    }
}

fn write_usage<E: Sink>(err: &mut E) -> Status
    ensures { IsTold E.taken E.faults err.old err.new result Usage usage_text }
{
    match put_usage(err) {
        Ok(()) => Status::Usage,
        Err(_) => Status::Write,
    }
}

fn write_no_network<E: Sink>(i: u32, j: u32, err: &mut E) -> Status
    ensures { IsTold E.taken E.faults err.old err.new result Lacking (no_network_text (i, j)) }
{
    match put_no_network(i, j, err) {
        Ok(()) => Status::Lacking,
        Err(_) => Status::Write,
    }
}

fn write_halt<E: Sink>(halt: &Halt, err: &mut E) -> Status
    ensures { IsTold E.taken E.faults err.old err.new result (status_of (halted halt.now)) (err_text (halted halt.now)) }
{
    match put_halt(halt, err) {
        Ok(()) => status_of_halt(halt),
        Err(_) => Status::Write,
    }
}

fn put_halt<K: Sink>(halt: &Halt, sink: &mut K) -> Result<(), Failed>
    ensures { Puts K.taken K.faults sink.old sink.new result (err_text (halted halt.now)) }
{
    match halt {
        Halt::Fault(blamed, fault) => put_fault(*blamed, fault, sink),
        Halt::Memory => put_memory(sink),
        Halt::Read => put_read(sink),
    }
}

fn status_of_halt(halt: &Halt) -> Status
    ensures { result ≡ status_of (halted halt.now) }
{
    match halt {
        Halt::Fault(..) => Status::Instance,
        Halt::Memory => Status::Memory,
        Halt::Read => Status::Read,
    }
}
