//! The separation of a hub set during the search.

ghost use Rattle.std.specs.Prelude.{◌≡◌, OnOk};
ghost use Rattle.hub_spec.specs.Plans.{IsHubSet};
ghost use Rattle.hub_spec.specs.Separation.{IsOrder};
ghost use Rattle.cut_pool.specs.Entries.{Lacks};
ghost use Rattle.search_spec.specs.Steps.{separated};
ghost use Rattle.search_steps.specs.Kinds.{parts_for};
ghost use Rattle.search_steps.specs.Progressing.{state_of, IsGoing, IsAt};

use crate::walk::RuleWalk;
use hub_model::HubSet;
use search_steps::{Rule, Separator, separate};
use std::alloc::AllocError;

impl<R: Rule> RuleWalk<'_, R> {
    /// Separates the set over this order of the other candidates. It becomes the incumbent if it costs less.
    ///
    /// The answer is `AllocError` also where there are as many cuts as a certificate can have.
    pub(crate) fn separate<S: Separator>(
        &mut self,
        separator: &mut S,
        set: HubSet,
        order: Vec<u32>,
    ) -> Result<(), AllocError>
        requires ready { S.ready separator.old }
        requires serves { R.serves self.old.rule.now self.old.task.now.instance.now }
        requires going { IsGoing self.old.task.now self.old.progress }
        requires set { IsHubSet self.old.task.now.instance.now set }
        requires order { IsOrder self.old.task.now.instance.now set order.items }
        requires first_time { Lacks self.old.progress.pool.entries set }
        ensures ready { S.ready separator.new }
        ensures same { self.new.task.now ≡ self.old.task.now }
        ensures serves { R.serves self.new.rule.now self.new.task.now.instance.now }
        ensures at { let p = self.old.task.now.instance.now in
            OnOk result (IsAt self.old.task.now self.old.progress self.new.progress
            (separated (parts_for S.kind p) set order.items (state_of p self.old.progress))) }
    {
        separate(
            self.alloc,
            self.task,
            &mut self.progress,
            separator,
            set,
            order,
        )
    }
}
