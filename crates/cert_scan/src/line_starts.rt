//! The start of the line of a dual or of a proof, taken in one step up to what the line lists.
//!
//! Any other start is taken word by word and number by number, as is one that the bytes at hand have only in part.
ghost use Rattle.std.specs.Prelude.{◌≡◌, false, None, IfSome};
ghost use Rattle.cert_scan.specs.Scans.{put, with_item};
ghost use Rattle.cert_scan.specs.Runs.{Runs};
ghost use Rattle.cert_scan.specs.Fronts.{IsPlainAhead};
ghost use Rattle.cert_scan.specs.declared.items.Item.TheVariants.{Dual as dual_item};
ghost use Rattle.cert_scan.specs.declared.bytes.Position.TheVariants.{Start, Number};
ghost use Rattle.cert_scan.specs.declared.places.Place.TheVariants.{ValueNode};
ghost use Rattle.cert_scan.specs.declared.stages.Stage.TheVariants.{Dual, ProvedDual, Proof};

use crate::bytes::Position;
use crate::fronts::{DualFront, dual_ahead, duals_ahead, proof_ahead};
use crate::items::{Item, Version};
use crate::places::Place;
use crate::scanner::Scan;
use crate::stages::{DualAt, LineRun, Stage, Subject, WaysAt};

impl Scan {
    // Takes what comes next where that is no pair and no way. Each start is taken apart, so that all others are spared the
    // code.
    #[inline(always)]
    pub(crate) fn begin_line(&mut self, bytes: &[u8]) -> (usize, Option<Item>)
        ensures { Runs self.old bytes.now result.0 result.1 self.new }
    {
        let Position::Start(stage) = self.position else {
            return self.advance_all(bytes);
        };
        match stage {
            Stage::ProvedDual(at) => self.begin_proved(at, bytes),
            Stage::Proof(at) => self.begin_proof(at, bytes),
            Stage::Dual(at) => self.begin_plain(at, bytes),
            _ => self.advance_all(bytes),
        }
    }

    // A dual of a marked cut.
    #[inline(never)]
    fn begin_proved(&mut self, at: DualAt, bytes: &[u8]) -> (usize, Option<Item>)
        requires { self.old.position ≡ Start (ProvedDual at) }
        ensures { Runs self.old bytes.now result.0 result.1 self.new }
    {
        let Some(front) = dual_ahead(at.commodity, bytes) else {
            return self.advance_all(bytes);
        };
        let item = self.list_price(Subject::Proved(at), at, front);
        (front.count, Some(item))
    }

    // A dual of a plain cut, or the duals of a run.
    #[inline(never)]
    fn begin_plain(&mut self, at: DualAt, bytes: &[u8]) -> (usize, Option<Item>)
        requires { self.old.position ≡ Start (Dual at) }
        ensures { Runs self.old bytes.now result.0 result.1 self.new }
    {
        let Some(front) = self.plain_ahead(at, bytes) else {
            return self.advance_all(bytes);
        };
        let run = LineRun {
            first: at,
            length: front.length,
        };
        let item = self.list_price(Subject::Plain(run), at, front);
        (front.count, Some(item))
    }

    // The first version has no runs.
    #[inline(always)]
    fn plain_ahead(&self, at: DualAt, bytes: &[u8]) -> Option<DualFront>
        ensures { IfSome result (IsPlainAhead self.now.shape at.commodity bytes.now) }
    {
        if let Some(front) = dual_ahead(at.commodity, bytes) {
            return Some(front);
        }
        match self.shape.version {
            Version::First => None,
            Version::Second | Version::Third => duals_ahead(self.shape.n, at.commodity, bytes),
        }
    }

    // The proof of a dual.
    #[inline(never)]
    fn begin_proof(&mut self, at: DualAt, bytes: &[u8]) -> (usize, Option<Item>)
        requires { self.old.position ≡ Start (Proof at) }
        ensures { Runs self.old bytes.now result.0 result.1 self.new }
    {
        let Some(front) = proof_ahead(bytes) else {
            return self.advance_all(bytes);
        };
        let none = WaysAt {
            dual: at,
            from: 0,
            to: 0,
        };
        self.position = Position::Number(Place::WayFrom(none), None);
        let item = Item::Proof {
            t: front.turns,
            g: front.scale,
            last: false,
        };
        (front.count, Some(item))
    }

    // Takes the price of a dual, behind which its line goes on.
    #[inline(always)]
    fn list_price(&mut self, subject: Subject, at: DualAt, front: DualFront) -> Item
        ensures given { result ≡ dual_item at.commodity.from at.commodity.to front.length front.price false }
        ensures after { self.new ≡ with_item (put self.old (Number (ValueNode subject 0) None)) result }
    {
        self.position = Position::Number(Place::ValueNode(subject, 0), None);
        match self.shape.version {
            Version::First => {}
            Version::Second | Version::Third => {
                self.so_far.begin(at.commodity.to, front.price);
            }
        }
        Item::Dual {
            i: at.commodity.from,
            j: at.commodity.to,
            run: front.length,
            a: front.price,
            last: false,
        }
    }
}
