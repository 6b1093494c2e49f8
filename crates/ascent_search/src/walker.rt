//! The walk over the tree with its heuristic.

ghost use Rattle.std.specs.Prelude.{◌≡◌, IfOk};

use crate::guide::Guide;
use crate::progress::TreeProgress;
use crate::task::SearchTask;
use crate::walk::Walk;
use search_advice::Advice;
use std::alloc::{AllocError, Global};

/// A walk with its heuristic, and the runtime's handle for the heuristic's threads.
#[derive(Drop)]
pub(crate) struct Walker<'a, R, A> {
    pub(crate) rt: &'a R,
    pub(crate) guide: Guide<A>,
    pub(crate) walk: Walk<'a>,
}

impl<'a, R, A: Advice + Drop> Walker<'a, R, A> {
    /// A walk with this heuristic, which goes on from the state so far.
    pub(crate) fn new(
        rt: &'a R,
        alloc: Global,
        task: &'a SearchTask<'a>,
        advice: A,
        progress: TreeProgress,
    ) -> Result<Walker<'a, R, A>, AllocError>
        ensures task { IfOk result (λ w. w.walk.task.now ≡ task.now) }
        ensures bench { IfOk result (λ w. w.walk.bench.problem ≡ task.now.instance.now) }
        ensures progress { IfOk result (λ w. w.walk.progress ≡ progress) }
    {
        let walk = Walk::new(alloc, task, progress)?;
        let guide = Guide::new(alloc, task.instance.candidates().len(), advice)?;
        Ok(Walker { rt, guide, walk })
    }
}
