//! What a target does about what is durable.

ghost use Rattle.std.specs.Prelude.{◌≡◌, ◌≤◌, ◌<◌, ◌++◌, ℕ, All, length, map, slice_index_or, OnOk, IfOk};
ghost use Rattle.std.specs.List.{flat_map};
ghost use Rattle.cluster_mail.specs.Mail.{fresh};
ghost use Rattle.target_turns.specs.Target.{fate_of};
ghost use Rattle.target_turns.specs.Marks.{note, stable_to, stables, cancel_to, cancels, risen_cancels, with_sent, tells, committing, syncing, resending};
ghost use Rattle.target_turns.specs.Seen.{served_of, after_ran};
ghost use Rattle.target_turns.specs.Touching.{Touches, RanCauses};

use crate::served::{Ran, Served};
use cluster_mail::{Mail, cancel_message, stable_message};
use fid_space::Targets;
use outside::Disk;
use scenario_text::{Line, Lines};
use std::alloc::AllocError as Memory;
use target_node::NodeFault;
use target_state::{Committed, Marks};

/// All targets that there can be, ascending.
pub(crate) const ALL: [u8; 16] = [0, 1, 2, 3, 4, 5, 6, 7, 8, 9, 10, 11, 12, 13, 14, 15];

impl<D: Disk> Served<D> {
    /// Tells a master, other than this target, up to which batch its records are stable here.
    fn tell_stable(&self, master: u8, batch: u64, mail: &mut Mail) -> Result<(), Memory>
        requires here { self.now.index ≤ 15 }
        requires master { master < 16 }
        ensures { OnOk result (mail.new ≡ mail.old ++ map fresh (stable_to self.now.node.state.epoch self.now.index (master, batch))) }
    {
        if master == self.index {
            return Ok(());
        }
        let epoch = self.node.epoch();
        mail.post(&stable_message(self.alloc, epoch, self.index, master, batch))
    }

    /// Tells a target of the cluster, other than this one and of this set, up to which batch the records of this
    /// master are stable everywhere.
    fn tell_cancel(&self, mark: u64, on: Targets, target: u8, mail: &mut Mail) -> Result<(), Memory>
        requires here { self.now.index ≤ 15 }
        requires target { target < 16 }
        ensures { OnOk result (mail.new ≡ mail.old ++ map fresh (cancel_to (served_of D.shown self.now) mark on target)) }
    {
        if target < self.cluster.targets() && on.has(target) && target != self.index {
            let epoch = self.node.epoch();
            return mail.post(&cancel_message(self.alloc, epoch, self.index, target, mark));
        }
        Ok(())
    }

    /// Notes that a target has committed the batches of this master up to this one. Its own records up to the
    /// mark are cancelled in memory.
    pub fn note_stable(&mut self, target: u8, batch: u64)
        requires { target < 16 }
        ensures after { served_of D.shown self.new ≡ note (served_of D.shown self.old) target batch }
        ensures disk { self.new.node.disk ≡ self.old.node.disk }
        ensures place { (self.new.cluster ≡ self.old.cluster) × (self.new.index ≡ self.old.index) }
    {
        self.coordinator.note_stable(target, batch);
        let mark = self.coordinator.mark();
        if mark > self.node.mark() {
            self.node.stable_mark(mark);
        }
    }

    /// Tells the master of a pair.
    fn tell_stable_at(&self, marks: &Marks, i: usize, mail: &mut Mail) -> Result<(), Memory>
        requires here { self.now.index ≤ 15 }
        requires there { i < length marks.now }
        requires masters { All (λ (m : ℕ × ℕ). m.0 < 16) marks.now }
        ensures { OnOk result (mail.new ≡ mail.old ++ map fresh (stable_to self.now.node.state.epoch self.now.index (slice_index_or marks.now i (0, 0)))) }
    {
        match marks.get(i) {
            Some((master, batch)) => self.tell_stable(master, batch, mail),
            None => unreachable!(),
        }
    }

    /// Tells the other masters of these pairs.
    #[tactic(auto, using(crate::proofs::Joining::joined), unfolding(crate::specs::Marks::stables))]
    pub(crate) fn tell_stables(&self, marks: &Marks, mail: &mut Mail) -> Result<(), Memory>
        requires here { self.now.index ≤ 15 }
        requires masters { All (λ (m : ℕ × ℕ). m.0 < 16) marks.now }
        ensures { OnOk result (mail.new ≡ mail.old ++ map fresh (stables self.now.node.state.epoch self.now.index marks.now)) }
    {
        for i in 0..marks.len() {
            self.tell_stable_at(marks, i, mail)?;
        }
        Ok(())
    }

    /// Tells those of these targets that `tell_cancel` tells.
    #[tactic(auto, using(crate::proofs::Joining::joined))]
    fn tell_cancels_to(
        &self,
        mark: u64,
        on: Targets,
        targets: &[u8],
        mail: &mut Mail,
    ) -> Result<(), Memory>
        requires here { self.now.index ≤ 15 }
        requires below { All (λ (t : ℕ). t < 16) targets.now }
        ensures { OnOk result (mail.new ≡ mail.old ++ map fresh (flat_map (cancel_to (served_of D.shown self.now) mark on) targets.now)) }
    {
        for target in targets {
            self.tell_cancel(mark, on, *target, mail)?;
        }
        Ok(())
    }

    /// Tells targets, other than this one, up to which batch the records of this master are stable everywhere.
    #[tactic(auto, unfolding(crate::specs::Marks::cancels))]
    pub(crate) fn tell_cancels(&self, mark: u64, on: Targets, mail: &mut Mail) -> Result<(), Memory>
        requires here { self.now.index ≤ 15 }
        ensures { OnOk result (mail.new ≡ mail.old ++ map fresh (cancels (served_of D.shown self.now) mark on)) }
    {
        self.tell_cancels_to(mark, on, &ALL, mail)
    }

    /// Tells the committed mark to the targets that took part since the last one that was sent.
    fn tell_mark(&mut self, mail: &mut Mail) -> Result<(), Memory>
        requires here { self.old.index ≤ 15 }
        ensures after { OnOk result (served_of D.shown self.new ≡ with_sent (served_of D.shown self.old)) }
        ensures sent { OnOk result (mail.new ≡ mail.old ++ map fresh (risen_cancels (served_of D.shown self.old))) }
        ensures disk { self.new.node.disk ≡ self.old.node.disk }
        ensures place { (self.new.cluster ≡ self.old.cluster) × (self.new.index ≡ self.old.index) }
    {
        let mark = self.node.mark();
        if mark <= self.sent_mark {
            return Ok(());
        }
        let on = self.coordinator.between(self.sent_mark, mark);
        self.tell_cancels(mark, on, mail)?;
        self.sent_mark = mark;
        Ok(())
    }

    /// Tells what a commit made stable: in a line, to the other masters, and, of its own operations that are
    /// stable everywhere, to the targets that took part.
    fn tell(
        &mut self,
        committed: Committed,
        mail: &mut Mail,
        lines: &mut Lines,
    ) -> Result<(), Memory>
        requires here { self.old.index ≤ 15 }
        requires masters { All (λ (m : ℕ × ℕ). m.0 < 16) committed.batches }
        ensures after { OnOk result (served_of D.shown self.new ≡ (tells (served_of D.shown self.old) committed.stable committed.batches).target) }
        ensures lines { OnOk result (lines.new ≡ lines.old ++ (tells (served_of D.shown self.old) committed.stable committed.batches).lines) }
        ensures sent { OnOk result (mail.new ≡ mail.old ++ map fresh (tells (served_of D.shown self.old) committed.stable committed.batches).sent) }
        ensures disk { self.new.node.disk ≡ self.old.node.disk }
        ensures place { (self.new.cluster ≡ self.old.cluster) × (self.new.index ≡ self.old.index) }
    {
        let Committed { stable, batches } = committed;
        lines.push(Line::Stable {
            target: self.index,
            numbers: stable,
        })?;
        self.tell_stables(&batches, mail)?;
        self.tell_mark(mail)?;
        let (own, accepted) = (self.index, self.coordinator.accepted());
        self.note_stable(own, accepted);
        Ok(())
    }

    /// Commits, and tells of it, or that its disk failed.
    pub fn commit(&mut self, mail: &mut Mail, lines: &mut Lines) -> Result<Ran, Memory>
        requires here { self.old.index ≤ 15 }
        ensures after { IfOk result (λ ran. after_ran ran (served_of D.shown self.new) ≡ (committing (served_of D.shown self.old) (fate_of (after_ran ran (served_of D.shown self.new)))).target) }
        ensures lines { IfOk result (λ ran. lines.new ≡ lines.old ++ (committing (served_of D.shown self.old) (fate_of (after_ran ran (served_of D.shown self.new)))).lines) }
        ensures sent { IfOk result (λ ran. mail.new ≡ mail.old ++ map fresh (committing (served_of D.shown self.old) (fate_of (after_ran ran (served_of D.shown self.new)))).sent) }
        ensures touches { Touches (D.shown self.old.node.disk) (D.shown self.new.node.disk) }
        ensures cause { IfOk result (RanCauses (D.shown self.old.node.disk) (D.shown self.new.node.disk)) }
        ensures place { (self.new.cluster ≡ self.old.cluster) × (self.new.index ≡ self.old.index) }
    {
        match self.node.commit() {
            Ok(committed) => {
                self.tell(committed, mail, lines)?;
                Ok(Ran::Stands)
            }
            Err(NodeFault::Disk) => {
                lines.push(Line::Down(self.index))?;
                Ok(Ran::Stopped)
            }
            Err(NodeFault::Memory) => Err(Memory),
        }
    }

    /// Commits before a request goes on, where something isn't committed, because of what this writer wrote.
    pub fn sync(
        &mut self,
        number: u32,
        writer: u32,
        mail: &mut Mail,
        lines: &mut Lines,
    ) -> Result<Ran, Memory>
        requires here { self.old.index ≤ 15 }
        ensures after { IfOk result (λ ran. after_ran ran (served_of D.shown self.new) ≡ (syncing number writer (served_of D.shown self.old) (fate_of (after_ran ran (served_of D.shown self.new)))).target) }
        ensures lines { IfOk result (λ ran. lines.new ≡ lines.old ++ (syncing number writer (served_of D.shown self.old) (fate_of (after_ran ran (served_of D.shown self.new)))).lines) }
        ensures sent { IfOk result (λ ran. mail.new ≡ mail.old ++ map fresh (syncing number writer (served_of D.shown self.old) (fate_of (after_ran ran (served_of D.shown self.new)))).sent) }
        ensures touches { Touches (D.shown self.old.node.disk) (D.shown self.new.node.disk) }
        ensures cause { IfOk result (RanCauses (D.shown self.old.node.disk) (D.shown self.new.node.disk)) }
        ensures place { (self.new.cluster ≡ self.old.cluster) × (self.new.index ≡ self.old.index) }
    {
        if self.node.is_idle() {
            return Ok(Ran::Stands);
        }
        lines.push(Line::Shared {
            target: self.index,
            number,
            writer,
        })?;
        self.commit(mail, lines)
    }
}
