//! Laws of the master's weights and point, and of the choices made by them.

ghost use Rattle.search_steps.specs.Theorems.{AdvisingIsSound, GreatestIsOne, NearestIsOne, PickedIsOne};

/// The master's weights are a mix of the cuts (at most 1 together), listed as a leaf lists it.
pub fn advising_is_sound()
    ensures { AdvisingIsSound }
{}

/// Among ascending nodes, the one with the greatest number in the point is unique, with ties to the least node.
pub fn greatest_is_one()
    ensures { GreatestIsOne }
{}

/// The node to branch on is unique: the free one whose number is nearest to half of the scale, with ties to the least
/// node.
pub fn nearest_is_one()
    ensures { NearestIsOne }
{}

/// The set that is separated is unique: the hubs of the branch, and the free nodes whose number is at least half of the
/// scale. Where these are no node at all, it is the free node with the greatest number.
pub fn picked_is_one()
    ensures { PickedIsOne }
{}
