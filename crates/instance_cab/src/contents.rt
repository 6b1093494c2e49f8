ghost use Rattle.std.specs.Prelude.{◌≡◌};
ghost use Rattle.file_spec.specs.Options.{flow_first};
ghost use Rattle.file_spec.specs.Contents.{IsContents};
ghost use Rattle.instance_cab.specs.Matrices.{contents_with};

use hub_model::{Factors, Numbers, Parts};

/// What a file gives that holds flows and distances alone: all factors are 1.
pub(crate) fn parts(n: u32, flows: Numbers, distances: Numbers) -> Parts
    requires { IsContents (contents_with flow_first n flows distances) }
    ensures { result ≡ contents_with flow_first n flows distances }
{
    Parts {
        n,
        flows,
        distances,
        factors: Factors {
            collect: 1000,
            trunk: 1000,
            deliver: 1000,
        },
        listed_p: None,
        tail_costs: None,
    }
}
