ghost use Rattle.std.specs.Prelude.{◌≡◌, ◌∷◌, [], true, false};
ghost use Rattle.tree_model.specs.Keys.{laid_base, layout_at};
ghost use Rattle.tree_model.specs.Striped.{on};
ghost use Rattle.tree_model.specs.Kept.{laid_of, IsKept};
ghost use Rattle.tree_model.specs.Worked.{these, striped_fid, mkdir_elsewhere, striped_mkdir, create_in_stripe, first_migrate, striped, migrated, migrated_twice, two_files, file_behind_setattr, never_done};

/// The targets of four operations: a directory is made on another target than its parent; one is made with
/// stripes; a file is made in it; it is given other stripes.
pub fn worked_targets()
    ensures mkdir { on 8 laid_base mkdir_elsewhere ≡ these (0 ∷ 3 ∷ []) }
    ensures striped { on 8 laid_base striped_mkdir ≡ these (0 ∷ 1 ∷ 4 ∷ 5 ∷ []) }
    ensures create { on 8 (laid_of 8 striped) create_in_stripe ≡ these (1 ∷ 2 ∷ 5 ∷ []) }
    ensures migrate { on 8 (laid_of 8 striped) first_migrate ≡ these (1 ∷ 4 ∷ 5 ∷ 7 ∷ []) }
{}

/// The layouts of a directory that is made with stripes and migrated twice.
pub fn worked_layouts()
    ensures made { layout_at (laid_of 8 striped) striped_fid ≡ record { count = 2; start = 4; generation = 0 } }
    ensures once { layout_at (laid_of 8 migrated) striped_fid ≡ record { count = 1; start = 7; generation = 1 } }
    ensures twice { layout_at (laid_of 8 migrated_twice) striped_fid ≡ record { count = 0; start = 0; generation = 2 } }
{}

/// One part of a history that may be kept, and three that may not: one lacks a number that must stay, one
/// lacks what its item depends on, and one has a reply that the tree doesn't give.
pub fn worked_parts()
    ensures kept { IsKept 8 two_files (2 ∷ []) (false ∷ true ∷ []) }
    ensures lost { ¬ IsKept 8 two_files (2 ∷ []) (true ∷ false ∷ []) }
    ensures dependent { ¬ IsKept 8 file_behind_setattr (2 ∷ []) (false ∷ true ∷ []) }
    ensures illegal { ¬ IsKept 8 never_done (1 ∷ []) (true ∷ []) }
{}
