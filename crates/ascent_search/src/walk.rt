//! The walk over the tree: task, workspace and state.

ghost use Rattle.std.specs.Prelude.{◌≡◌, IfOk};

use crate::bench::Bench;
use crate::progress::TreeProgress;
use crate::task::SearchTask;
use std::alloc::{AllocError, Global};

/// The walk over the tree: its task, the workspace for the instance, and the state so far.
#[derive(Drop)]
pub(crate) struct Walk<'a> {
    pub(crate) alloc: Global,
    pub(crate) task: &'a SearchTask<'a>,
    pub(crate) bench: Bench<'a>,
    pub(crate) progress: TreeProgress,
}

impl<'a> Walk<'a> {
    /// A walk that goes on from this state.
    pub(crate) fn new(
        alloc: Global,
        task: &'a SearchTask<'a>,
        progress: TreeProgress,
    ) -> Result<Walk<'a>, AllocError>
        ensures task { IfOk result (λ w. w.task.now ≡ task.now) }
        ensures bench { IfOk result (λ w. w.bench.problem ≡ task.now.instance.now) }
        ensures progress { IfOk result (λ w. w.progress ≡ progress) }
    {
        let bench = Bench::new(alloc, task.instance)?;
        Ok(Walk {
            alloc,
            task,
            bench,
            progress,
        })
    }
}
