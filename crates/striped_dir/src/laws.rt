ghost use Rattle.std.specs.Prelude.{◌≡◌};
ghost use Rattle.tree_model.specs.Keys.{Layout};
ghost use Rattle.striped_dir.specs.Layouts.{FitsLayout, layout_text};
ghost use Rattle.striped_dir.specs.PartLaws.{PartsHaveTheirPlace, OnePartPerObject, StripesAreSpelled};

/// No two layouts share a spelling. The call does nothing: its contract is a law, as that of the calls below.
pub fn one_spelling_per_layout()
    ensures one { (l m : Layout) → FitsLayout l → FitsLayout m → layout_text l ≡ layout_text m → l ≡ m }
{}

/// Each part of a directory stands on the target that its object's FID says, and two parts are two objects.
pub fn parts_stand_with_their_objects()
    ensures place { PartsHaveTheirPlace }
    ensures apart { OnePartPerObject }
{}

/// The update that makes a stripe has a spelling, and so has the one that removes it.
pub fn stripes_are_spelled()
    ensures spelled { StripesAreSpelled }
{}
