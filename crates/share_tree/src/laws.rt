ghost use Rattle.share_tree.specs.TreeLaws.{EntriesFollow, AttributesFollow, SharesMakeTheTree};

/// The call for the next entry goes through one list: each entry of each object, by FID and then by name. The
/// call does nothing: its contract is a law, as that of each call below.
pub fn one_list_of_entries()
    ensures follow { EntriesFollow }
{}

/// The call for the next attribute does so as well.
pub fn one_list_of_attributes()
    ensures follow { AttributesFollow }
{}

/// Beginning with nothing, the shares of a history, added by the numbers of their targets, make up its tree.
pub fn shares_make_the_tree()
    ensures tree { SharesMakeTheTree }
{}
