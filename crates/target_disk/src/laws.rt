ghost use Rattle.outside.specs.Disk.{Shown};
ghost use Rattle.target_disk.specs.Tables.{Saved};
ghost use Rattle.target_disk.specs.Store.{IsSettled, OpensAs, Stands};

/// Each image of a settled disk opens as the disk does. The call does nothing: its contract is a law.
pub fn a_settled_disk_opens_so()
    ensures { (disk : Shown) → (saved : Saved) → IsSettled disk saved → OpensAs disk saved }
{}

/// A commit may begin on a settled disk.
pub fn a_settled_disk_stands()
    ensures { (disk : Shown) → (saved : Saved) → IsSettled disk saved → Stands disk saved }
{}

/// Each image of a disk on which a commit may begin opens as the disk does.
pub fn a_disk_that_stands_opens_so()
    ensures { (disk : Shown) → (saved : Saved) → Stands disk saved → OpensAs disk saved }
{}
