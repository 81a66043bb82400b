//! Which trees with layouts a cluster has, and that each history makes one. A tree is sound where each FID has
//! what it may have (a body, a layout and names that can be written down), each file is named as often as its
//! links say, and each directory once, by its parent. The layers above may rest on this without asking
//! whether a history is legal; they go by the shape of an operation's change in place of its plan.
#![tactic(auto)]

ghost use Rattle.tree_sound.specs.SoundLaws.{BaseIsSound, StepsAreSound, HistoriesAreSound, ChangesHaveShapes, NamesLeadToNodes, ParentsNameTheirDirectories, ParentsAreFids, DirectoriesFit};

/// The tree of each history is sound. The call does nothing: its contract is a law, as that of each call below.
pub fn histories_keep_trees_sound()
    ensures base { BaseIsSound }
    ensures step { StepsAreSound }
    ensures histories { HistoriesAreSound }
{}

/// The change of each operation has one of eight shapes, with the facts that its checks found.
pub fn changes_have_shapes()
    ensures shape { ChangesHaveShapes }
{}

/// Names lead to nodes, and a directory stands under the parent that is stored with it.
pub fn parents_name_their_directories()
    ensures there { NamesLeadToNodes }
    ensures once { ParentsNameTheirDirectories }
    ensures fids { ParentsAreFids }
{}

/// Each directory has a layout of which its parts can be told.
pub fn directories_fit()
    ensures fits { DirectoriesFit }
{}
