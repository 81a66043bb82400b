//! Laws of whole runs.

ghost use Rattle.std.specs.Prelude.{ℕ, List, Option};
ghost use Rattle.std.specs.Io.KnownBytes.{IsAtEnd};
ghost use Rattle.outside.specs.declared.status.Status.{Status};
ghost use Rattle.line_player.specs.Played.{Played, Runs};
ghost use Rattle.target_turns.specs.Disks.{calls_of};
ghost use Rattle.cluster_player.specs.Played.{Playing, disks_in};
ghost use Rattle.cluster_player.specs.Disks.{AreKept};
ghost use Rattle.cluster_player.specs.Taken.{player_rules, player_takes};

use outside::Plant;

/// Over any lines that were played one after another each disk is the same one, in its place, and its count of faults
/// never falls; and so it is however the lines end. The call does nothing: its contract is a law.
pub fn lines_keep_the_disks<D: Plant>()
    ensures lines { (old new : Playing) (lines : List (List ℕ)) (text : List ℕ) → Runs (player_takes (calls_of D.cycled D.armed)) old lines new text
        → AreKept (disks_in old) (disks_in new) }
    ensures ends { (left : Option (List ℕ)) (old new : Playing) (status : Status) (read text : List ℕ)
        → Played (player_rules (calls_of D.cycled D.armed) old new) (IsAtEnd left) status read text
        → AreKept (disks_in old) (disks_in new) }
{}
