//! Cases of whole runs over memory, each a line of standard input.
//!
//! They show what the cases of the built program leave open of `hub_top`. Reads of any length give the same results,
//! and each failing call of the shelf is reported. What `optimize` writes is checked. Workers pass the gate.
//!
//! The shelf holds the files `f` and `g`. A line is one of these:
//!
//! - `# ..`: printed as it is
//! - `f TEXT`: the file `f` is this text from now on
//! - `run WORD ..`: the number of the status, and the output on out and err
//! - `keep WORD ..`: the number of the status; the file `g` is the output on out from now on
//! - `hold WORD ..`: the number of the status; the file `f` is the output on out from now on
//! - `reads WORD ..`: how many runs differ, of those whose reads give at most 1 byte, 2 bytes and so on up to more than
//!   the longest file has
//! - `failing WORD ..`: how many calls of the shelf a run makes, with reads of at most ten bytes, and how many of them
//!   are reported where they fail
//! - `counted WORD ..`: the number of the status, and the lines of out with size, cost, bound, cuts and nodes. Then how
//!   often each of the first 51 blocks passed the gate, and what else did
//! - `numbers`: the numbers of all statuses

use crate::counting::counted;
use crate::folder::Folder;
use crate::runs::{Faults, Ran, run_over, words_of};
use hub_io::OpenGate;
use hub_top::Status;
use std::alloc::{AllocError, Global};
use std::io;
use std::thread::Threads;

/// The texts of the files `f` and `g`.
#[derive(Drop)]
struct Texts {
    instance: String,
    certificate: String,
}

impl Texts {
    fn folder(&self, alloc: Global) -> Result<Folder, AllocError> {
        Folder::of(alloc, self.instance.as_bytes(), self.certificate.as_bytes())
    }
}

// More reads than any case makes.
const READS: usize = 1000;

/// Prints what each line gives.
pub(crate) fn tell<R: Print + Threads + Sync>(
    rt: &R,
    alloc: Global,
    cases: &str,
) -> io::Result<()> {
    let mut texts = Texts {
        instance: String::new(alloc),
        certificate: String::new(alloc),
    };
    for line in cases.lines() {
        let text = answer(rt, alloc, &mut texts, line)?;
        print!(rt; "{text}")?;
    }
    Ok(())
}

// What is printed of a line.
fn answer<R: Threads + Sync>(
    rt: &R,
    alloc: Global,
    texts: &mut Texts,
    line: &str,
) -> Result<String, AllocError> {
    let (name, rest) = line.split_once(" ").unwrap_or((line, ""));
    match name {
        "" => Ok(String::new(alloc)),
        "#" => format!(in alloc; "{line}\n"),
        "f" => {
            texts.instance = String::from_str(alloc, rest)?;
            Ok(String::new(alloc))
        }
        "keep" => {
            let (text, told) = kept(rt, alloc, texts, rest)?;
            texts.certificate = text;
            Ok(told)
        }
        "hold" => {
            let (text, told) = kept(rt, alloc, texts, rest)?;
            texts.instance = text;
            Ok(told)
        }
        "numbers" => numbers(alloc),
        _ => of_run(
            rt,
            alloc,
            &texts.folder(alloc)?,
            name,
            &words_of(alloc, rest)?,
        ),
    }
}

// What is printed of a line that leaves the files as they are.
fn of_run<R: Threads + Sync>(
    rt: &R,
    alloc: Global,
    folder: &Folder,
    name: &str,
    words: &[String],
) -> Result<String, AllocError> {
    match name {
        "run" => run_over(rt, alloc, words, folder, Faults::none(alloc), &OpenGate)?.told(alloc),
        "reads" => reads(rt, alloc, folder, words),
        "failing" => failing(rt, alloc, folder, words),
        "counted" => counted(rt, alloc, folder, words),
        _ => format!(in alloc; "no such case\n"),
    }
}

// What the run puts on out, and what is printed of it.
fn kept<R: Threads + Sync>(
    rt: &R,
    alloc: Global,
    texts: &Texts,
    words: &str,
) -> Result<(String, String), AllocError> {
    let words = words_of(alloc, words)?;
    let folder = texts.folder(alloc)?;
    let mut faults = Faults::none(alloc);
    faults.much_room = true;
    let ran = run_over(rt, alloc, &words, &folder, faults, &OpenGate)?;
    let text = String::from_utf8_lossy(alloc, &ran.out)?;
    let told = format!(in alloc; "status {}\n", ran.status.number())?;
    Ok((text, told))
}

fn numbers(alloc: Global) -> Result<String, AllocError> {
    let numbers = [
        Status::Done.number(),
        Status::Stopped.number(),
        Status::No.number(),
        Status::Usage.number(),
        Status::Instance.number(),
        Status::Memory.number(),
        Status::Read.number(),
        Status::Write.number(),
        Status::Lacking.number(),
    ];
    format!(in alloc; "{numbers:?}\n")
}

// The run with reads of at most so many bytes, of which these calls fail.
fn short<R: Threads + Sync>(
    rt: &R,
    alloc: Global,
    folder: &Folder,
    words: &[String],
    most: usize,
    calls: &[u64],
) -> Result<Ran, AllocError> {
    let mut faults = Faults::none(alloc);
    faults.reads = calls.to_vec(alloc)?;
    faults.lengths = vec![in alloc; most; READS]?;
    run_over(rt, alloc, words, folder, faults, &OpenGate)
}

// How many runs with reads of at most 1 byte, 2 bytes and so on differ from a run with reads of any length.
fn reads<R: Threads + Sync>(
    rt: &R,
    alloc: Global,
    folder: &Folder,
    words: &[String],
) -> Result<String, AllocError> {
    let wanted = run_over(rt, alloc, words, folder, Faults::none(alloc), &OpenGate)?;
    let mut lengths = 0u32;
    let mut differ = 0u32;
    for most in 1..folder.longest().saturating_add(2) {
        lengths = lengths.saturating_add(1);
        if short(rt, alloc, folder, words, most, &[])? != wanted {
            differ = differ.saturating_add(1);
        }
    }
    format!(in alloc; "{lengths} lengths, {differ} differ\n")
}

// How many calls of the shelf a run makes with reads of at most ten bytes, and how many failures of these it reports.
fn failing<R: Threads + Sync>(
    rt: &R,
    alloc: Global,
    folder: &Folder,
    words: &[String],
) -> Result<String, AllocError> {
    let wanted = short(rt, alloc, folder, words, 10, &[])?;
    let mut told = 0u32;
    for call in 1..READS as u64 {
        let ran = short(rt, alloc, folder, words, 10, &[call])?;
        if ran == wanted {
            return format!(in alloc; "{} calls, {told} told\n", call - 1);
        }
        if ran.tells_read() {
            told = told.saturating_add(1);
        }
    }
    format!(in alloc; "too many calls\n")
}
