//! The leaf of a node.

ghost use Rattle.std.specs.Prelude.{◌≡◌, ◌^◌, ◌<◌, All, IfOk};
ghost use Rattle.hub_spec.specs.Trees.{leaf_of};
ghost use Rattle.hub_model.specs.Lines.{tree_line_of};
ghost use Rattle.search_spec.specs.States.{denominator};
ghost use Rattle.search_steps.specs.Weights.{pairs_of};

use hub_model::{Mix, TreeLine, signed};
use search_core::WHOLE_WEIGHT;
use std::alloc::{AllocError, Global};

/// The leaf with these weights on the first cuts, in 10^-6. Weights above 0 are listed, by cut numbers from 1.
///
/// It fails where memory runs out.
pub fn leaf_line(alloc: Global, weights: &[u128]) -> Result<TreeLine, AllocError>
    requires { All (λ w. w < 2 ^ 127) weights.now }
    ensures { IfOk result (λ line. tree_line_of line ≡ leaf_of denominator (pairs_of weights.now)) }
{
    let mut pairs = Vec::new(alloc);
    for (place, weight) in weights.iter().enumerate() {
        if *weight > 0 {
            pairs.push((place as i128 + 1, signed(*weight)))?;
        }
    }
    Ok(TreeLine::Leaf(Mix::new(WHOLE_WEIGHT as i128, pairs)))
}
