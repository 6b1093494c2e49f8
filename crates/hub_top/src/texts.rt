//! The texts that the program prints.

ghost use Rattle.std.specs.Prelude.{◌≡◌, [], ◌∷◌, decimal};
ghost use Rattle.hub_io.specs.Outside.{Puts};
ghost use Rattle.hub_model.specs.Amounts.{natural};
ghost use Rattle.hub_model.specs.Faults.{fault_of, missing_of};
ghost use Rattle.file_spec.specs.Faults.{missing_pair, bad_size, repeated, too_costly};
ghost use Rattle.hub_top.specs.Texts.{usage_text, memory_text, read_text, no_network_text, blame_words, pair_words, fault_line, fault_text};
ghost use Rattle.hub_sources.specs.Blames.{blame_of};

use dec_text::{Piece, put_line};
use hub_io::{Failed, Sink};
use hub_model::{InstanceFault, Wanted, unsigned};
use hub_sources::Blamed;

/// The word for this file in the line of a fault.
fn words_of(blamed: Blamed) -> &'static [u8]
    ensures { result.now ≡ blame_words (blame_of blamed) }
{
    match blamed {
        Blamed::Instance => b"hub: instance fault ",
        Blamed::Costs => b"hub: costs fault ",
    }
}

/// Puts the usage text.
#[tactic(auto, unfolding(crate::specs::Texts::usage_text))]
pub fn put_usage<K: Sink>(sink: &mut K) -> Result<(), Failed>
    ensures { Puts K.taken K.faults sink.old sink.new result usage_text }
{
    sink.put(
        b"usage: hub solve LAYOUT FILE [options] [--nodes N] [--workers W]\n       hub check LAYOUT FILE CERT [options]\n       hub report LAYOUT FILE CERT [options]\n       hub make SEED SIZE\n       hub demo SEED SIZE [--nodes N] [--workers W]\nLAYOUT: cab-matrix, cab-rows, ap\noptions: --order flow-first|distance-first, --tail ignore|fixed, --divide D,\n         --collect X, --trunk X, --deliver X, --fixed X, --costs FILE,\n         --candidates LIST, --no-self\n         --format 1|2\n         --max-length R\n         --hubs P|file\n       hub resolve LAYOUT FILE OLD [options] [--nodes N] [--workers W]\n         --cuts minimal|core\n         --rule 1|2\n",
    )
}

/// Puts the line that says that memory ran out. It allocates nothing.
#[tactic(auto, unfolding(crate::specs::Texts::memory_text))]
pub fn put_memory<K: Sink>(sink: &mut K) -> Result<(), Failed>
    ensures { Puts K.taken K.faults sink.old sink.new result memory_text }
{
    sink.put(b"hub: out of memory\n")
}

/// Puts the line that says that reading a file failed.
#[tactic(auto, unfolding(crate::specs::Texts::read_text))]
pub fn put_read<K: Sink>(sink: &mut K) -> Result<(), Failed>
    ensures { Puts K.taken K.faults sink.old sink.new result read_text }
{
    sink.put(b"hub: read failed\n")
}

/// Puts the line that says that no network has a route from `i` to `j`.
#[tactic(auto, unfolding(crate::specs::Texts::no_network_text))]
pub fn put_no_network<K: Sink>(i: u32, j: u32, sink: &mut K) -> Result<(), Failed>
    ensures { Puts K.taken K.faults sink.old sink.new result (no_network_text (i, j)) }
{
    put_line(
        &[
            Piece::Text(b"hub: no network for "),
            Piece::Count(i as u128 + 1),
            Piece::Text(b" "),
            Piece::Count(j as u128 + 1),
            Piece::Text(b"\n"),
        ],
        sink,
    )
}

/// Puts the line of a fault.
pub fn put_fault<K: Sink>(file: Blamed, fault: &InstanceFault, sink: &mut K) -> Result<(), Failed>
    ensures { Puts K.taken K.faults sink.old sink.new result (fault_text (blame_of file) (fault_of fault.now)) }
{
    match *fault {
        InstanceFault::TooLong => put_words(file, b"1 TooLong", sink),
        InstanceFault::BadNumber { at } => put_at(file, b"2 BadNumber at ", at, sink),
        InstanceFault::Missing { what } => put_missing(file, &what, sink),
        InstanceFault::Extra { at } => put_at(file, b"4 Extra at ", at, sink),
        InstanceFault::Size { got } => put_size(file, got, sink),
        InstanceFault::Negative { at } => put_at(file, b"6 Negative at ", at, sink),
        InstanceFault::TooBig { at } => put_at(file, b"7 TooBig at ", at, sink),
        InstanceFault::BadIndex { at } => put_at(file, b"8 BadIndex at ", at, sink),
        InstanceFault::Repeated { i, j } => put_repeated(file, i, j, sink),
        InstanceFault::NoCandidate { k } => put_at(file, b"10 NoCandidate ", k as u64 + 1, sink),
        InstanceFault::TooCostly { sum } => put_sum(file, sum, sink),
        InstanceFault::Hubs { p } => put_at(file, b"12 Hubs ", p as u64, sink),
    }
}

fn put_missing<K: Sink>(file: Blamed, what: &Wanted, sink: &mut K) -> Result<(), Failed>
    ensures { Puts K.taken K.faults sink.old sink.new result (fault_text (blame_of file) (missing_of what.now)) }
{
    match *what {
        Wanted::Token(count) => put_at(file, b"3 Missing token ", count, sink),
        Wanted::Pair(i, j) => put_missing_pair(file, i, j, sink),
    }
}

#[tactic(auto, unfolding(crate::specs::Texts::fault_line))]
fn put_words<K: Sink>(file: Blamed, words: &[u8], sink: &mut K) -> Result<(), Failed>
    ensures { Puts K.taken K.faults sink.old sink.new result (fault_line (blame_of file) (words.now ∷ [])) }
{
    put_line(
        &[
            Piece::Text(words_of(file)),
            Piece::Text(words),
            Piece::Text(b"\n"),
        ],
        sink,
    )
}

#[tactic(auto, unfolding(crate::specs::Texts::fault_line))]
fn put_at<K: Sink>(file: Blamed, words: &[u8], at: u64, sink: &mut K) -> Result<(), Failed>
    ensures { Puts K.taken K.faults sink.old sink.new result (fault_line (blame_of file) (words.now ∷ decimal at ∷ [])) }
{
    put_line(
        &[
            Piece::Text(words_of(file)),
            Piece::Text(words),
            Piece::Count(at as u128),
            Piece::Text(b"\n"),
        ],
        sink,
    )
}

fn put_missing_pair<K: Sink>(file: Blamed, i: u32, j: u32, sink: &mut K) -> Result<(), Failed>
    ensures { Puts K.taken K.faults sink.old sink.new result (fault_text (blame_of file) (missing_pair i j)) }
{
    put_pair(file, b"3 Missing pair ", i, j, sink)
}

fn put_repeated<K: Sink>(file: Blamed, i: u32, j: u32, sink: &mut K) -> Result<(), Failed>
    ensures { Puts K.taken K.faults sink.old sink.new result (fault_text (blame_of file) (repeated i j)) }
{
    put_pair(file, b"9 Repeated ", i, j, sink)
}

#[tactic(auto, unfolding(crate::specs::Texts::fault_line))]
fn put_pair<K: Sink>(file: Blamed, words: &[u8], i: u32, j: u32, sink: &mut K) -> Result<(), Failed>
    ensures { Puts K.taken K.faults sink.old sink.new result (fault_line (blame_of file) (pair_words words.now i j)) }
{
    put_line(
        &[
            Piece::Text(words_of(file)),
            Piece::Text(words),
            Piece::Count(i as u128 + 1),
            Piece::Text(b" "),
            Piece::Count(j as u128 + 1),
            Piece::Text(b"\n"),
        ],
        sink,
    )
}

#[tactic(auto, unfolding(crate::specs::Texts::fault_line))]
fn put_size<K: Sink>(file: Blamed, got: i128, sink: &mut K) -> Result<(), Failed>
    ensures { Puts K.taken K.faults sink.old sink.new result (fault_text (blame_of file) (bad_size got)) }
{
    put_line(
        &[
            Piece::Text(words_of(file)),
            Piece::Text(b"5 Size "),
            Piece::Number(got),
            Piece::Text(b"\n"),
        ],
        sink,
    )
}

#[tactic(auto, unfolding(crate::specs::Texts::fault_line))]
fn put_sum<K: Sink>(file: Blamed, sum: i128, sink: &mut K) -> Result<(), Failed>
    ensures { Puts K.taken K.faults sink.old sink.new result (fault_text (blame_of file) (too_costly (natural sum))) }
{
    put_line(
        &[
            Piece::Text(words_of(file)),
            Piece::Text(b"11 TooCostly "),
            Piece::Count(natural_of(sum)),
            Piece::Text(b"\n"),
        ],
        sink,
    )
}

// The number that this is, 0 where it is below 0.
fn natural_of(amount: i128) -> u128
    ensures { result ≡ natural amount }
{
    if amount < 0 { 0 } else { unsigned(amount) }
}
