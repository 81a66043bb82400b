//! What planners do over a tree: with true answers a planner asks the first question of the tree's checks that
//! has no answer yet, and where all have one it comes to the reply of the tree's step.
//!
//! The layer above may rest on this without a look at any planner's code: the laws are about the one function
//! of operation, batch and answers that each planner follows. The calls do nothing: their contracts are laws.
#![tactic(auto)]

ghost use Rattle.std.specs.Prelude.{◌≡◌, ℕ, List, Option, Some, bit_and};
ghost use Rattle.std.specs.FinMap as map;
ghost use Rattle.tree_model.specs.declared.node.Node.{Node};
ghost use Rattle.fid_space.specs.declared.fid.Fid.{Fid};
ghost use Rattle.tree_model.specs.declared.op.Op.TheVariants as ops;
ghost use Rattle.tree_model.specs.Looks.{plan};
ghost use Rattle.plan_base.specs.Planning.{asks};
ghost use Rattle.std.specs.List.{AllByRecursion};
ghost use Rattle.tree_model.specs.Keys.{Laid};
ghost use Rattle.plan_base.specs.Told.{Told};
ghost use Rattle.plan_base.specs.Asks.{Asks, answer};
ghost use Rattle.plan_laws.specs.Truth.{IsTrueOf, IsLaid, questions, over, first_open, or_outcome, Matches, TellsTruth};
ghost use Rattle.plan_base.specs.Planners.{told_more};
ghost use Rattle.plan_laws.specs.Readback.{NodesReadBack, ChildrenReadBack, CountsReadBack, ValuesReadBack, NamesReadBack};
ghost use Rattle.plan_base.specs.declared.question.Question.{Question};
ghost use Rattle.out_update.specs.declared.result.UpdateResult.{UpdateResult};

/// With answers that are true of a tree, a planner asks the first question of the tree's checks that has no
/// answer yet, and where all have one, it comes to what the checks come to.
#[tactic(auto, using(crate::proofs::Reaching::reaching))]
pub fn the_next_question_is_asked()
    ensures { (l : Laid) (t : Told) (a : Asks) → IsTrueOf l t → AllByRecursion (IsLaid l) (questions l a) → answer t a ≡ or_outcome (first_open t (questions l a)) (over l a) }
{}

/// Over a tree the checks of an operation come to the reply of its plan, ask for the keys that the plan looks
/// at in their order, and each question names the layout of its directory.
pub fn the_checks_are_the_plans()
    ensures create { (targets batch : ℕ) (l : Laid) (p : Fid) (x : List ℕ) (f : Fid) → Matches l (asks targets batch (ops.Create p x f)) (plan targets (ops.Create p x f)) }
    ensures mkdir { (targets batch : ℕ) (l : Laid) (p : Fid) (x : List ℕ) (f : Fid) (s : Option (ℕ × ℕ)) → Matches l (asks targets batch (ops.Mkdir p x f s)) (plan targets (ops.Mkdir p x f s)) }
    ensures rmdir { (targets batch : ℕ) (l : Laid) (p : Fid) (x : List ℕ) → Matches l (asks targets batch (ops.Rmdir p x)) (plan targets (ops.Rmdir p x)) }
    ensures setxattr { (targets batch : ℕ) (l : Laid) (f : Fid) (x v : List ℕ) → Matches l (asks targets batch (ops.SetXattr f x v)) (plan targets (ops.SetXattr f x v)) }
    ensures rename { (targets batch : ℕ) (l : Laid) (p : Fid) (x : List ℕ) (q : Fid) (y : List ℕ) → Matches l (asks targets batch (ops.Rename p x q y)) (plan targets (ops.Rename p x q y)) }
    ensures migrate { (targets batch : ℕ) (l : Laid) (d : Fid) (c i : ℕ) → Matches l (asks targets batch (ops.Migrate d c i)) (plan targets (ops.Migrate d c i)) }
    ensures link { (targets batch : ℕ) (l : Laid) (p : Fid) (x : List ℕ) (f : Fid) → Matches l (asks targets batch (ops.Link p x f)) (plan targets (ops.Link p x f)) }
    ensures unlink { (targets batch : ℕ) (l : Laid) (p : Fid) (x : List ℕ) → Matches l (asks targets batch (ops.Unlink p x)) (plan targets (ops.Unlink p x)) }
    ensures setattr { (targets batch : ℕ) (l : Laid) (f : Fid) (m u g : ℕ) → Matches l (asks targets batch (ops.SetAttr f m u g)) (plan targets (ops.SetAttr f m u g)) }
    ensures delxattr { (targets batch : ℕ) (l : Laid) (f : Fid) (x : List ℕ) → Matches l (asks targets batch (ops.DelXattr f x)) (plan targets (ops.DelXattr f x)) }
    ensures getattr { (targets batch : ℕ) (l : Laid) (f : Fid) → ((n : Node) → map.get l.tree.nodes f ≡ Some n → bit_and n.mode 0xffff ≡ n.mode) → Matches l (asks targets batch (ops.GetAttr f)) (plan targets (ops.GetAttr f)) }
    ensures getxattr { (targets batch : ℕ) (l : Laid) (f : Fid) (x : List ℕ) → Matches l (asks targets batch (ops.GetXattr f x)) (plan targets (ops.GetXattr f x)) }
    ensures lookup { (targets batch : ℕ) (l : Laid) (p : Fid) (x : List ℕ) → Matches l (asks targets batch (ops.Lookup p x)) (plan targets (ops.Lookup p x)) }
{}

/// What was told stays true with one more true answer.
pub fn what_was_told_stays_true()
    ensures { (l : Laid) (t : Told) (q : Question) (r : UpdateResult) → IsTrueOf l t → TellsTruth l q r → IsTrueOf l (told_more t q r) }
{}

/// What is read of an object is what stands in it.
pub fn what_is_read_is_there()
    ensures nodes { NodesReadBack }
    ensures children { ChildrenReadBack }
    ensures counts { CountsReadBack }
    ensures values { ValuesReadBack }
    ensures names { NamesReadBack }
{}
