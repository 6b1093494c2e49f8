//! The duals of all origins.

ghost use Rattle.std.specs.Prelude.{◌≡◌, IfOk};
ghost use Rattle.std.specs.List.{AllZip, range_with_len};
ghost use Rattle.hub_spec.specs.Cuts.{cut_by};
ghost use Rattle.hub_spec.specs.Separation.{set_cut};
ghost use Rattle.par_separate.specs.Origins.{AreMinimalDualsFrom};

use hub_model::Dual;
use pareto_cuts::Separation;
use std::alloc::{AllocError, Global};

/// The duals of the cut, one for each commodity in order, where those of each origin stand in the order of the origins.
pub(crate) fn joined(
    alloc: Global,
    separation: &Separation,
    origins: Vec<Vec<Dual>>,
) -> Result<Vec<Dual>, AllocError>
    requires each { AllZip (λ i duals. AreMinimalDualsFrom separation.now i duals.items) (range_with_len 0 separation.now.problem.size) origins.items }
    ensures { let s = separation.now in IfOk result (λ duals. cut_by duals.items ≡ set_cut s.problem s.hubs s.order) }
{
    let nodes = separation.instance().size() as usize;
    let mut joined = Vec::with_capacity(alloc, nodes * nodes)?;
    for mut duals in origins {
        joined.append(&mut duals)?;
    }
    Ok(joined)
}
