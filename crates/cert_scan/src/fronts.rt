//! The fixed first part of the line of a dual or of a proof, up to what it lists, where the bytes at hand have all of
//! it.
ghost use Rattle.std.specs.Prelude.{◌≡◌, ◌+◌, ◌<◌, ◌≤◌, length, codes, take, Some, IfSome, true};
ghost use Rattle.cert_scan.specs.Runs.{GoesOn};
ghost use Rattle.cert_scan.specs.Fronts.{AreNodesAt, IsDualAhead, AreDualsAhead, IsProofAhead};

use crate::digits::{ROOM, SMALL_ROOM, number_ahead, small_ahead};
use crate::marks::{MOST_SCALE, MOST_TURNS};
use crate::stages::Commodity;

// Of how many commodities of one origin a dual is, and its price; the line goes on behind so many bytes.
#[derive(Clone, Copy)]
pub(crate) struct DualFront {
    pub count: usize,
    pub length: u32,
    pub price: u128,
}

// The turns and the scale of a proof; the line goes on behind so many bytes.
#[derive(Clone, Copy)]
pub(crate) struct ProofFront {
    pub count: usize,
    pub turns: u32,
    pub scale: u32,
}

// A word of five letters, three small numbers, and a short one, with a byte behind each.
const LONGEST: usize = 6 + 3 * SMALL_ROOM + ROOM;

// Reads the prefix of a line with the dual of this commodity alone, if the bytes begin with one.
#[inline(always)]
pub(crate) fn dual_ahead(commodity: Commodity, bytes: &[u8]) -> Option<DualFront>
    ensures { IfSome result (IsDualAhead commodity bytes.now) }
{
    if bytes.len() < LONGEST || !begins_dual(bytes) || bytes[4] != b' ' {
        return None;
    }
    let at = behind_nodes(commodity, bytes, 5)?;
    let (price, count) = number_ahead(bytes, at)?;
    Some(DualFront {
        count,
        length: 1,
        price: price as u128,
    })
}

// Reads the prefix of a line with several duals, the first of this commodity, if the bytes begin with one.
#[inline(always)]
pub(crate) fn duals_ahead(n: u32, commodity: Commodity, bytes: &[u8]) -> Option<DualFront>
    ensures { IfSome result (AreDualsAhead n commodity bytes.now) }
{
    if bytes.len() < LONGEST || !begins_dual(bytes) || bytes[4] != b's' || bytes[5] != b' ' {
        return None;
    }
    let at = behind_nodes(commodity, bytes, 6)?;
    let (length, behind) = small_ahead(bytes, at)?;
    let most = n.saturating_sub(commodity.to);
    if length < 2 || length > most as u64 {
        return None;
    }
    let (price, count) = number_ahead(bytes, behind)?;
    Some(DualFront {
        count,
        length: length as u32,
        price: price as u128,
    })
}

// Reads the prefix of the line of a proof, if the bytes begin with one.
#[inline(always)]
pub(crate) fn proof_ahead(bytes: &[u8]) -> Option<ProofFront>
    ensures { IfSome result (IsProofAhead bytes.now) }
{
    if bytes.len() < LONGEST || !begins_proof(bytes) || bytes[5] != b' ' {
        return None;
    }
    let (turns, at) = small_ahead(bytes, 6)?;
    if turns as u128 > MOST_TURNS {
        return None;
    }
    let (scale, count) = number_ahead(bytes, at)?;
    if scale < 1 || scale as u128 > MOST_SCALE {
        return None;
    }
    Some(ProofFront {
        count,
        turns: turns as u32,
        scale: scale as u32,
    })
}

#[inline(always)]
fn begins_dual(bytes: &[u8]) -> bool
    requires { 5 ≤ length bytes.now }
    ensures { result ≡ true → GoesOn (codes "dual") 0 (take 4 bytes.now) }
{
    bytes[0] == b'd' && bytes[1] == b'u' && bytes[2] == b'a' && bytes[3] == b'l'
}

#[inline(always)]
fn begins_proof(bytes: &[u8]) -> bool
    requires { 5 ≤ length bytes.now }
    ensures { result ≡ true → GoesOn (codes "proof") 0 (take 5 bytes.now) }
{
    bytes[0] == b'p' && bytes[1] == b'r' && bytes[2] == b'o' && bytes[3] == b'o' && bytes[4] == b'f'
}

// Where the bytes go on behind the nodes of a commodity, if these stand here.
#[inline(always)]
fn behind_nodes(commodity: Commodity, bytes: &[u8], at: usize) -> Option<usize>
    requires { at + 8 ≤ length bytes.now }
    ensures nodes { IfSome result (AreNodesAt bytes.now at commodity) }
    ensures near { IfSome result (λ behind. behind ≤ at + 8) }
{
    let (from, between) = small_ahead(bytes, at)?;
    if from != commodity.from as u64 + 1 {
        return None;
    }
    let (to, behind) = small_ahead(bytes, between)?;
    if to != commodity.to as u64 + 1 {
        return None;
    }
    Some(behind)
}
