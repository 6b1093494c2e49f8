//! The data of the bounds at a node.

ghost use Rattle.search_steps.specs.Weights.{AreWeighed, IsLentBy};

use cut_pool::Pool;
use hub_model::Instance;
use leaf_bound::Weighting;
use search_core::WHOLE_WEIGHT;

/// Weights on the first cuts of a search's pool, in 10^-6.
#[derive(Clone, Copy)]
pub struct NodeWeights<'a> {
    /// The instance.
    pub instance: &'a Instance,
    /// The cuts.
    pub pool: &'a Pool,
    /// The weight of each of the first cuts.
    pub weights: &'a [u128],
}

impl<'a> NodeWeights<'a> {
    /// What the bounds under these weights are made of, with the numbers that the pool lends.
    pub(crate) fn weighting(&self) -> Weighting<'a>
        requires { AreWeighed self.now }
        ensures { IsLentBy self.now result }
    {
        Weighting {
            totals: self.pool.totals(),
            loads: self.pool.loads(),
            parts: self.pool.parts(),
            fixed: self.instance.fixed_costs(),
            weights: self.weights,
            denom: WHOLE_WEIGHT,
        }
    }
}
