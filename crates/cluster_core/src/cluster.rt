//! A cluster over its disks, and its commands.

ghost use Rattle.std.specs.Prelude.{◌≡◌, ◌≤◌, ◌<◌, ◌++◌, ℕ, List, length, map, Some, OnOk, OnErr, IfOk, IfErr, true, false};
ghost use Rattle.tree_model.specs.OpText.{IsOp};
ghost use Rattle.tree_model.specs.Participants.{home_of};
ghost use Rattle.cluster_mail.specs.Mail.{size_of};
ghost use Rattle.scenario_text.specs.declared.line.Line.{Line};
ghost use Rattle.target_turns.specs.Disks.{calls_of};
ghost use Rattle.target_turns.specs.Showing.{shows_log};
ghost use Rattle.cluster_core.specs.Cluster.{target_at};
ghost use Rattle.cluster_core.specs.Delivery.{Delivers, Settles};
ghost use Rattle.cluster_core.specs.Commands.{Commits, Begins, crashed, crash_lines, sends, sends_again, drops, resends_all};
ghost use Rattle.cluster_core.specs.Looks.{list_lines};
ghost use Rattle.cluster_core.specs.Ends.{Ends};
ghost use Rattle.cluster_core.specs.Founding.{AllFounded};
ghost use Rattle.cluster_core.specs.Cored.{Goes, Keeps, unmade, all_disks, tree_answer};

use crate::members::Members;
use crate::seating::{seat, unseat};
use cluster_mail::Mail;
use fid_space::Cluster;
use outside::Plant;
use scenario_text::Lines;
use std::alloc::{AllocError as Memory, Global};
use std::marker::Model;
use tree_model::{PlainTree, Request};

/// What a look at the tree answers.
#[derive(Drop)]
pub enum TreeAnswer {
    /// The tree that the objects of all targets make up.
    Tree(PlainTree),
    /// It can't be shown, since this request is in flight: the lowest one.
    Busy(u32),
    /// It can't be shown, since this target doesn't serve: the lowest one.
    NotServing(u8),
}

/// A cluster over sixteen disks, of which the first are its targets'. After a call that wanted memory all further
/// ones do, and it can only give back its disks.
#[derive(Drop)]
pub struct Core<D: Plant> {
    members: Members<D>,
    spare: Vec<D>,
    // a call has begun, and hasn't ended well
    spent: bool,
}

impl<D: Plant> Model for Core<D> {
    ghost use Rattle.std.specs.Prelude.{◌+◌, ◌≤◌, length, map, vec_len, vec_capacity};
    ghost use Rattle.std.specs.Coded.{codes};
    ghost use Rattle.object_store.specs.Objects.{coded_objects};
    ghost use Rattle.commit_sharing.specs.Pending.{coded_writers};
    ghost use Rattle.plan_base.specs.Planners.{coded_planning};
    ghost use Rattle.cluster_core.specs.Cored.{Cored};

    ghost Value = { Cored };

    ghost coded = { Prim.hlevel (codes, coded_objects, coded_writers, coded_planning) };

    ghost view = { λ c. record { cluster = c.members; spare = map D.shown c.spare.items; spent = c.spent } };

    ghost invariant = { λ c. length c.members.targets + vec_len c.spare ≤ vec_capacity c.spare };
}

impl<D: Plant> Core<D> {
    /// A cluster whose targets are down, the first of them over the first disks. The disks come back for want of
    /// memory.
    pub fn new(alloc: Global, cluster: Cluster, disks: Vec<D>) -> Result<Core<D>, Vec<D>>
        requires { cluster ≤ length disks.items }
        ensures ok { IfOk result (λ c. c ≡ unmade cluster (map D.shown disks.items)) }
        ensures err { IfErr result (λ back. back.items ≡ disks.items) }
    {
        let mut disks = disks;
        let mut targets = match Vec::with_capacity(alloc, cluster.targets() as usize) {
            Ok(targets) => targets,
            Err(_) => return Err(disks),
        };
        seat(alloc, cluster, &mut disks, &mut targets);
        Ok(Core {
            members: Members {
                alloc,
                cluster,
                targets,
                mail: Mail::new(alloc),
            },
            spare: disks,
            spent: false,
        })
    }

    /// How many targets there are.
    pub fn targets(&self) -> u8
        ensures count { result ≡ length self.now.cluster.targets }
        ensures some { 1 ≤ result }
        ensures most { result ≤ 16 }
    {
        self.members.count()
    }

    /// How many messages were sent.
    pub fn sent(&self) -> u32
        ensures { result ≡ length self.now.cluster.sent }
    {
        self.members.mail.len()
    }

    /// How many bytes all messages have.
    pub fn message_bytes(&self) -> u64
        ensures { result ≡ size_of self.now.cluster.sent }
    {
        self.members.mail.bytes()
    }

    /// Begins a call: until it ends well, the cluster is spent.
    fn begin(&mut self) -> Result<(), Memory>
        ensures same { self.new ≡ record self.old { spent = true } }
        ensures err { OnErr result (self.old.spent ≡ true) }
        ensures ok { OnOk result (self.old.spent ≡ false) }
    {
        if self.spent {
            return Err(Memory);
        }
        self.spent = true;
        Ok(())
    }

    /// Formats the disks of all targets, by their numbers. Each serves then, or, where its disk failed, is down, and a
    /// line says so.
    #[tactic(auto, using(crate::proofs::Placed::touched_same, crate::proofs::Placed::touched_equal))]
    pub fn found(&mut self, lines: &mut Lines) -> Result<(), Memory>
        ensures does { OnOk result ((ls : List Line) × AllFounded self.old.cluster self.new.cluster ls × (lines.new ≡ lines.old ++ ls)) }
        ensures goes { OnOk result (Goes self.old self.new) }
        ensures memory { OnErr result (self.new.spent ≡ true) }
        ensures keeps { Keeps self.old self.new }
    {
        self.begin()?;
        self.members.found(lines)?;
        self.spent = false;
        Ok(())
    }

    /// Sends a request of a client, below 64, to its home. Its number is at most 65,536.
    #[tactic(auto, using(crate::proofs::Placed::touched_same, crate::proofs::Placed::touched_equal))]
    pub fn send(&mut self, request: &Request) -> Result<(), Memory>
        requires client { request.now.client < 64 }
        requires number { request.now.number ≤ 65536 }
        requires op { IsOp (length self.old.cluster.targets) request.now.op }
        ensures does { OnOk result ((home : ℕ) × (home_of (length self.old.cluster.targets) request.now.op ≡ Some home) × (self.new.cluster ≡ sends self.old.cluster home request.now)) }
        ensures goes { OnOk result (Goes self.old self.new) }
        ensures memory { OnErr result (self.new.spent ≡ true) }
        ensures keeps { Keeps self.old self.new }
    {
        self.begin()?;
        self.members.send(request)?;
        self.spent = false;
        Ok(())
    }

    /// Sends the message of this number, from 1, once more, under a number of its own.
    #[tactic(auto, using(crate::proofs::Placed::touched_same, crate::proofs::Placed::touched_equal))]
    pub fn again(&mut self, k: u32) -> Result<(), Memory>
        requires low { 1 ≤ k }
        requires sent { k ≤ length self.old.cluster.sent }
        ensures does { OnOk result (self.new.cluster ≡ sends_again self.old.cluster k) }
        ensures goes { OnOk result (Goes self.old self.new) }
        ensures memory { OnErr result (self.new.spent ≡ true) }
        ensures keeps { Keeps self.old self.new }
    {
        self.begin()?;
        self.members.send_again(k)?;
        self.spent = false;
        Ok(())
    }

    /// Delivers the message of this number, from 1, also one that was delivered or dropped before.
    #[tactic(auto, using(crate::proofs::Placed::touched_same, crate::proofs::Placed::touched_equal))]
    pub fn deliver(&mut self, k: u32, lines: &mut Lines) -> Result<(), Memory>
        requires low { 1 ≤ k }
        requires sent { k ≤ length self.old.cluster.sent }
        ensures does { OnOk result ((ls : List Line) × Delivers self.old.cluster k self.new.cluster ls × (lines.new ≡ lines.old ++ ls)) }
        ensures goes { OnOk result (Goes self.old self.new) }
        ensures memory { OnErr result (self.new.spent ≡ true) }
        ensures keeps { Keeps self.old self.new }
    {
        self.begin()?;
        self.members.deliver(k, lines)?;
        self.spent = false;
        Ok(())
    }

    /// Marks the message of this number, from 1, as dropped.
    #[tactic(auto, using(crate::proofs::Placed::touched_same, crate::proofs::Placed::touched_equal))]
    pub fn drop_message(&mut self, k: u32) -> Result<(), Memory>
        requires low { 1 ≤ k }
        requires sent { k ≤ length self.old.cluster.sent }
        ensures does { OnOk result (self.new.cluster ≡ drops self.old.cluster k) }
        ensures goes { OnOk result (Goes self.old self.new) }
        ensures memory { OnErr result (self.new.spent ≡ true) }
        ensures keeps { Keeps self.old self.new }
    {
        self.begin()?;
        self.members.drop_message(k);
        self.spent = false;
        Ok(())
    }

    /// Delivers messages, the least number that waits first, until none waits or 100,000 were delivered.
    #[tactic(auto, using(crate::proofs::Placed::touched_same, crate::proofs::Placed::touched_equal))]
    pub fn settle(&mut self, lines: &mut Lines) -> Result<(), Memory>
        ensures does { OnOk result ((ls : List Line) × Settles self.old.cluster self.new.cluster ls × (lines.new ≡ lines.old ++ ls)) }
        ensures goes { OnOk result (Goes self.old self.new) }
        ensures memory { OnErr result (self.new.spent ≡ true) }
        ensures keeps { Keeps self.old self.new }
    {
        self.begin()?;
        self.members.settle(lines)?;
        self.spent = false;
        Ok(())
    }

    /// Sends once more what wasn't answered, by the numbers of the targets that serve.
    #[tactic(auto, using(crate::proofs::Placed::touched_same, crate::proofs::Placed::touched_equal))]
    pub fn resend(&mut self) -> Result<(), Memory>
        ensures does { OnOk result (self.new.cluster ≡ resends_all self.old.cluster) }
        ensures goes { OnOk result (Goes self.old self.new) }
        ensures memory { OnErr result (self.new.spent ≡ true) }
        ensures keeps { Keeps self.old self.new }
    {
        self.begin()?;
        self.members.resend()?;
        self.spent = false;
        Ok(())
    }

    /// Commits a target, or adds the line of what it does where it doesn't serve.
    #[tactic(auto, using(crate::proofs::Placed::touched_same, crate::proofs::Placed::touched_equal))]
    pub fn commit(&mut self, target: u8, lines: &mut Lines) -> Result<(), Memory>
        requires { target < length self.old.cluster.targets }
        ensures does { OnOk result ((ls : List Line) × Commits self.old.cluster target self.new.cluster ls × (lines.new ≡ lines.old ++ ls)) }
        ensures goes { OnOk result (Goes self.old self.new) }
        ensures memory { OnErr result (self.new.spent ≡ true) }
        ensures keeps { Keeps self.old self.new }
    {
        self.begin()?;
        self.members.commit(target, lines)?;
        self.spent = false;
        Ok(())
    }

    /// Stops a target: it loses all but its disk. Where it is down, the line of what it does is added.
    #[tactic(auto, using(crate::proofs::Placed::touched_same, crate::proofs::Placed::touched_equal))]
    pub fn crash(&mut self, target: u8, lines: &mut Lines) -> Result<(), Memory>
        requires { target < length self.old.cluster.targets }
        ensures does { OnOk result (self.new.cluster ≡ crashed self.old.cluster target) }
        ensures lines { OnOk result (lines.new ≡ lines.old ++ crash_lines self.old.cluster target) }
        ensures goes { OnOk result (Goes self.old self.new) }
        ensures memory { OnErr result (self.new.spent ≡ true) }
        ensures keeps { Keeps self.old self.new }
    {
        self.begin()?;
        self.members.crash(target, lines)?;
        self.spent = false;
        Ok(())
    }

    /// Starts a target from its disk, or adds the line of what it does where it isn't down.
    #[tactic(auto, using(crate::proofs::Placed::touched_same, crate::proofs::Placed::touched_equal))]
    pub fn restart(&mut self, target: u8, lines: &mut Lines) -> Result<(), Memory>
        requires { target < length self.old.cluster.targets }
        ensures does { OnOk result ((ls : List Line) × Begins (calls_of D.cycled D.armed) self.old.cluster target self.new.cluster ls × (lines.new ≡ lines.old ++ ls)) }
        ensures goes { OnOk result (Goes self.old self.new) }
        ensures memory { OnErr result (self.new.spent ≡ true) }
        ensures keeps { Keeps self.old self.new }
    {
        self.begin()?;
        self.members.restart(target, lines)?;
        self.spent = false;
        Ok(())
    }

    /// Arms the disk of a target, as [`Plant::arm`] does.
    #[tactic(auto, using(crate::proofs::Placed::touched_same, crate::proofs::Placed::touched_equal))]
    pub fn fuse(&mut self, target: u8, after: u32, choice: u8) -> Result<(), Memory>
        requires { target < length self.old.cluster.targets }
        ensures same { OnOk result (self.new.cluster ≡ self.old.cluster) }
        ensures armed { OnOk result (D.armed after choice (target_at self.old.cluster.targets target).disk) }
        ensures goes { OnOk result (Goes self.old self.new) }
        ensures memory { OnErr result (self.new.spent ≡ true) }
        ensures keeps { Keeps self.old self.new }
    {
        self.begin()?;
        self.members.arm(target, after, choice);
        self.spent = false;
        Ok(())
    }

    /// Adds a line for each message that waits.
    #[tactic(auto, using(crate::proofs::Placed::touched_same, crate::proofs::Placed::touched_equal))]
    pub fn list(&mut self, lines: &mut Lines) -> Result<(), Memory>
        ensures same { OnOk result (self.new.cluster ≡ self.old.cluster) }
        ensures lines { OnOk result (lines.new ≡ lines.old ++ list_lines 1 self.old.cluster.sent) }
        ensures goes { OnOk result (Goes self.old self.new) }
        ensures memory { OnErr result (self.new.spent ≡ true) }
        ensures keeps { Keeps self.old self.new }
    {
        self.begin()?;
        self.members.show_list(lines)?;
        self.spent = false;
        Ok(())
    }

    /// Adds the lines of a target's update log, or of what it does where it is down.
    #[tactic(auto, using(crate::proofs::Placed::touched_same, crate::proofs::Placed::touched_equal))]
    pub fn log(&mut self, target: u8, lines: &mut Lines) -> Result<(), Memory>
        requires { target < length self.old.cluster.targets }
        ensures same { OnOk result (self.new.cluster ≡ self.old.cluster) }
        ensures lines { OnOk result (lines.new ≡ lines.old ++ shows_log (target_at self.old.cluster.targets target)) }
        ensures goes { OnOk result (Goes self.old self.new) }
        ensures memory { OnErr result (self.new.spent ≡ true) }
        ensures keeps { Keeps self.old self.new }
    {
        self.begin()?;
        self.members.show_log(target, lines)?;
        self.spent = false;
        Ok(())
    }

    /// Ends: each target commits, by its number, where all serve and no request is in flight.
    #[tactic(auto, using(crate::proofs::Placed::touched_same, crate::proofs::Placed::touched_equal))]
    pub fn finish(&mut self, lines: &mut Lines) -> Result<(), Memory>
        ensures does { OnOk result ((ls : List Line) × Ends self.old.cluster self.new.cluster ls × (lines.new ≡ lines.old ++ ls)) }
        ensures goes { OnOk result (Goes self.old self.new) }
        ensures memory { OnErr result (self.new.spent ≡ true) }
        ensures keeps { Keeps self.old self.new }
    {
        self.begin()?;
        self.members.finish(lines)?;
        self.spent = false;
        Ok(())
    }

    /// The tree that the objects of all targets make up, or what is in its way.
    pub fn tree(&self, alloc: Global) -> Result<TreeAnswer, Memory>
        ensures { IfOk result (λ answer. answer ≡ tree_answer self.now.cluster.targets) }
    {
        if let Some(target) = self.members.first_resting() {
            return Ok(TreeAnswer::NotServing(target));
        }
        if let Some(number) = self.members.first_in_flight() {
            return Ok(TreeAnswer::Busy(number));
        }
        Ok(TreeAnswer::Tree(self.members.tree(alloc)?))
    }

    /// Gives back all disks, in their order.
    pub fn into_disks(self) -> Vec<D>
        ensures { map D.shown result.items ≡ all_disks self }
    {
        let Core { members, spare, .. } = self;
        let Members { targets, .. } = members;
        unseat(targets, spare)
    }
}
