ghost use Rattle.std.specs.Prelude.{◌≤◌, nat_abs};
ghost use Rattle.file_spec.specs.Limits.{most_coordinate};

/// Where a node lies, in 10^-6.
#[derive(Clone, Copy)]
pub(crate) struct Point {
    pub(crate) x: i64,
    pub(crate) y: i64,
    ghost x_limit: { nat_abs x ≤ most_coordinate },
    ghost y_limit: { nat_abs y ≤ most_coordinate },
}
