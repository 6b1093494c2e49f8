//! The certificate of a finding, with all of its duals.

ghost use Rattle.std.specs.Prelude.{◌≡◌, IfOk, All};
ghost use Rattle.cert_scan.specs.Versions.{version_number};
ghost use Rattle.cut_pool.specs.Kept.{kept_of, kept_cut, kept_cuts, IsKeptFor};
ghost use Rattle.proof_text.specs.Certificates.{IsCertificateOf, CanBeStated, HasVersion};
ghost use Rattle.dual_lender.specs.Lenders.{IsLenderFor, made_dual};

use crate::headings::heading_of;
use crate::marks::said_marks;
use cert_format::{Certificate, Version};
use cut_model::StatedCut;
use cut_pool::{Found, KeptCut, KeptCuts};
use dual_lender::DualLender;
use hub_model::{Dual, Instance, Plan, TreeLine};
use std::alloc::{AllocError, Global};
use value_cuts::CandidateLegs;

/// The certificate of a finding in this version. The duals of each cut are computed again; those of an explicit cut
/// (Pareto-optimal or imported) are copied. In the third version Pareto-optimal cuts are marked.
///
/// The first version is only for findings that it has lines for. There each cut has the part 1, and its duals have at
/// most 30 digits. No leaf is infeasible for a commodity or for the wanted number of hubs.
pub fn certificate_of(
    alloc: Global,
    instance: &Instance,
    found: &Found,
    version: Version,
) -> Result<Certificate, AllocError>
    requires version { HasVersion (version_number version) instance.now found.now }
    requires found { CanBeStated instance.now found.now }
    ensures { IfOk result (IsCertificateOf (version_number version) instance.now found.now) }
{
    let heading = heading_of(instance, found, version);
    let plan = plan_again(alloc, &found.plan)?;
    let cuts = stated_cuts(alloc, instance, &found.cuts)?;
    let marks = said_marks(alloc, version, &found.cuts)?;
    let tree = lines_again(alloc, &found.tree)?;
    Ok(Certificate::new(heading, plan, cuts, marks, tree))
}

// Each cut, with its duals.
fn stated_cuts(
    alloc: Global,
    instance: &Instance,
    cuts: &KeptCuts,
) -> Result<Vec<StatedCut>, AllocError>
    requires { All (IsKeptFor instance.now) cuts.now.cuts }
    ensures { IfOk result (λ stated. stated.items ≡ kept_cuts instance.now cuts.now.cuts) }
{
    let tables = CandidateLegs::new(alloc, instance)?;
    let mut lender = DualLender::new(alloc, &tables)?;
    lent_cuts(alloc, instance, cuts, &mut lender)
}

// Each cut, with its duals, which are computed in the workspace.
fn lent_cuts(
    alloc: Global,
    instance: &Instance,
    cuts: &KeptCuts,
    lender: &mut DualLender,
) -> Result<Vec<StatedCut>, AllocError>
    requires lender { IsLenderFor instance.now lender.old }
    requires fit { All (IsKeptFor instance.now) cuts.now.cuts }
    ensures { IfOk result (λ stated. stated.items ≡ kept_cuts instance.now cuts.now.cuts) }
{
    let mut all = Vec::with_capacity(alloc, cuts.len() as usize)?;
    for place in 0..cuts.len() {
        let kept = cuts.cut(place + 1);
        all.push(stated_cut(alloc, instance, kept, lender)?)?;
    }
    Ok(all)
}

// The cut with its duals, one for each commodity in order.
fn stated_cut(
    alloc: Global,
    instance: &Instance,
    kept: &KeptCut,
    lender: &mut DualLender,
) -> Result<StatedCut, AllocError>
    requires lender { IsLenderFor instance.now lender.old }
    requires fits { IsKeptFor instance.now (kept_of kept.now) }
    ensures lender { IsLenderFor instance.now lender.new }
    ensures cut { IfOk result (λ cut. cut ≡ kept_cut instance.now (kept_of kept.now)) }
{
    let n = instance.size();
    let mut cut = StatedCut::new(alloc, kept.part());
    lender.begin(instance, kept);
    for i in 0..n {
        lender.work_out(instance, kept, i);
        for j in 0..n {
            lender.make(instance, kept, i, j);
            let dual = lent_dual(alloc, lender, kept)?;
            cut.add(1, &dual)?;
        }
    }
    cut.trim();
    Ok(cut)
}

// The dual that was made last of the cut, in a type of its own.
fn lent_dual(alloc: Global, lender: &DualLender, kept: &KeptCut) -> Result<Dual, AllocError>
    ensures { IfOk result (λ dual. dual ≡ made_dual (kept_of kept.now) lender.now) }
{
    let (a, u) = lender.dual(kept);
    Ok(Dual::new(a, u.to_vec(alloc)?))
}

// The same plan again.
fn plan_again(alloc: Global, plan: &Plan) -> Result<Plan, AllocError>
    ensures { IfOk result (λ again. again ≡ plan.now) }
{
    let hubs = plan.hubs().to_vec(alloc)?;
    let routes = plan.routes().to_vec(alloc)?;
    Ok(Plan::new(hubs, routes))
}

// The same lines again.
fn lines_again(alloc: Global, lines: &[TreeLine]) -> Result<Vec<TreeLine>, AllocError>
    ensures { IfOk result (λ again. again.items ≡ lines.now) }
{
    let mut again = Vec::with_capacity(alloc, lines.len())?;
    for line in lines {
        again.push(line_again(alloc, line)?)?;
    }
    Ok(again)
}

fn line_again(alloc: Global, line: &TreeLine) -> Result<TreeLine, AllocError>
    ensures { IfOk result (λ again. again ≡ line.now) }
{
    match line {
        TreeLine::BranchOn(k) => Ok(TreeLine::BranchOn(*k)),
        TreeLine::Leaf(mix) => Ok(TreeLine::Leaf(mix.copy(alloc)?)),
        TreeLine::Empty => Ok(TreeLine::Empty),
        TreeLine::Block { i, j } => Ok(TreeLine::Block { i: *i, j: *j }),
        TreeLine::Count => Ok(TreeLine::Count),
    }
}
