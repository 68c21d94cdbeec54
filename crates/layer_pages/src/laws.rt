//! What stands beside a change of pages, and what searches of a layer's tree answer: each law is the contract
//! of a function that does nothing.

ghost use Rattle.std.specs.Prelude.{◌≡◌};
ghost use Rattle.layer_pages.specs.Laws.{LayersBesideStand, LayersStandInEqualPages, NearestAreObjects};
ghost use Rattle.layer_pages.specs.Laws.{NewObjectsAreEntries};
ghost use Rattle.layer_pages.specs.Laws.{ObjectsGiveBoxes, PagesOfALayerAreThere, RangesAnswerObjects};

/// Each page of a layer that stands is live.
pub fn pages_of_a_layer_are_there()
    ensures { PagesOfALayerAreThere }
{}

/// A layer that stands beside the pages of a change stands after it, and one that stands does so in equal
/// pages.
pub fn layers_stand_beside_changes()
    ensures beside { LayersBesideStand }
    ensures equal { LayersStandInEqualPages }
{}

/// The boxes of a tree of the shape of an R-tree are boxes where those of its objects are.
pub fn boxes_of_objects_make_boxes()
    ensures { ObjectsGiveBoxes }
{}

/// Objects whose identifiers are all different are the entries of the map that they make, so `load` takes
/// them.
pub fn new_objects_are_entries()
    ensures { NewObjectsAreEntries }
{}

/// What `range_query` finds in the tree of a layer are the objects of the layer that pass, by identifier.
pub fn ranges_answer_the_objects()
    ensures { RangesAnswerObjects }
{}

/// What `nearest` finds there are the objects of the layer that are nearest.
pub fn nearest_are_the_objects()
    ensures { NearestAreObjects }
{}
