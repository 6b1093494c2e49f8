//! The hub set of a stored cut.

ghost use Rattle.std.specs.Prelude.{◌≡◌, Some, option_map};
ghost use Rattle.cut_pool.specs.Kept.{kept_of, kept_set};
ghost use Rattle.cut_pool.specs.PoolCuts.{IsOfSet};

use crate::KeptCut;

/// The hubs of the set of a cut, if it is of one.
pub(crate) fn hubs_if_any(cut: &KeptCut) -> Option<&[u32]>
    ensures { option_map (λ hubs. hubs.now) result ≡ kept_set (kept_of cut.now) }
{
    match cut {
        KeptCut::Set(set, _) => Some(set.members()),
        KeptCut::Core(marked) => Some(marked.mark.hubs()),
        _ => None,
    }
}

/// The hubs of the set of a cut that is of one.
pub(crate) fn hubs_of(cut: &KeptCut) -> &[u32]
    requires { IsOfSet (kept_of cut.now) }
    ensures { kept_set (kept_of cut.now) ≡ Some result.now }
{
    match hubs_if_any(cut) {
        Some(hubs) => hubs,
        None => unreachable!(),
    }
}
