ghost use Rattle.std.specs.Prelude.{◌≡◌, ◌≢◌, ℕ, ◌++◌, ◌∷◌, [], List};
ghost use Rattle.std.specs.List.{AllByRecursion};
ghost use Rattle.tree_model.specs.declared.op.Op.{Op};
ghost use Rattle.tree_model.specs.declared.errno.Errno.{Errno};
ghost use Rattle.tree_model.specs.declared.reply.Reply.{Reply};
ghost use Rattle.tree_model.specs.OpText.{IsOp, op_text};
ghost use Rattle.tree_model.specs.Tree.{Tree};
ghost use Rattle.tree_model.specs.Step.{step};
ghost use Rattle.tree_model.specs.History.{Item, tree_from, tree_of, IsLegal};
ghost use Rattle.tree_model.specs.Laws.{StepIsDecided, OnlyLooksMatter, SameTargets, SameChange, OnlyWrittenChange, LayoutsAreBeside, ClosedPartsAgree, WrittenIsLookedAt, ChangesUnlessRefused, NodesAfter, NamesAfter, NameAfter, LayoutsAfter, OthersKeepTheirNames, OneTarget};

/// Two operations with one text are one operation, also where their clusters differ.
pub fn one_text_per_operation()
    ensures one { (m n : ℕ) (o p : Op) → IsOp m o → IsOp n p → op_text o ≡ op_text p → o ≡ p }
{}

/// A legal history stays legal where an operation comes to its end with the reply that its tree gives,
/// under a number that no operation before it has.
pub fn a_legal_history_goes_on()
    ensures more { (targets : ℕ) (h : List Item) (i : Item) → IsLegal targets h
        → i.reply ≡ (step targets (tree_of targets h) i.request.op).1
        → AllByRecursion (λ j. j.request.number ≢ i.request.number) h → IsLegal targets (h ++ i ∷ []) }
{}

/// The tree of a history that goes on is made from the tree of its front alone.
pub fn the_tree_of_one_more()
    ensures one_more { (targets : ℕ) (h : List Item) (i : Item)
        → tree_of targets (h ++ i ∷ []) ≡ (step targets (tree_of targets h) i.request.op).0 }
    ensures appended { (targets : ℕ) (h k : List Item)
        → tree_of targets (h ++ k) ≡ tree_from targets (tree_of targets h) k }
{}

/// An operation whose reply is an error leaves the tree as it was.
pub fn a_refused_operation_changes_nothing()
    ensures stays { (targets : ℕ) (t : Tree) (op : Op) (e : Errno)
        → (step targets t op).1 ≡ Reply.Err e → (step targets t op).0 ≡ t }
{}

/// The step of an operation is what it decides by its looks, one after another.
pub fn the_step_is_decided_by_looks()
    ensures decided { StepIsDecided }
{}

/// Only looks matter: where two trees have the same under each key that an operation looks at, it looks
/// at the same keys in both, gives the same reply and makes the same change, on the same targets.
pub fn only_looks_matter()
    ensures decision { OnlyLooksMatter }
    ensures targets { SameTargets }
    ensures change { SameChange }
{}

/// Only written keys change: a key that no written key meets keeps what stands under it.
pub fn only_written_keys_change()
    ensures stays { OnlyWrittenChange }
{}

/// The layouts of directories stand beside the tree, and no step of the tree depends on them.
pub fn layouts_are_beside_the_tree()
    ensures beside { LayoutsAreBeside }
{}

/// A part of a legal history, in its order, that has what its items depend on is a legal history itself,
/// and each of its items has the looks, the reply and the change that it has in the whole.
pub fn a_closed_part_agrees()
    ensures agrees { ClosedPartsAgree }
{}

/// Written is looked at: an operation looks at each key that it writes.
pub fn written_is_looked_at()
    ensures looked { WrittenIsLookedAt }
{}

/// An operation makes its changes where no check fails, and else none.
pub fn a_check_that_fails_leaves_no_change()
    ensures changes { ChangesUnlessRefused }
{}

/// What stands after a change: nodes, names and layouts, each from what stood there before.
pub fn changes_take_effect()
    ensures nodes { NodesAfter }
    ensures names { NamesAfter }
    ensures name { NameAfter }
    ensures layouts { LayoutsAfter }
    ensures others { OthersKeepTheirNames }
{}

/// In a cluster of one target each operation is on that target alone.
pub fn one_target_has_all_operations()
    ensures one { OneTarget }
{}
