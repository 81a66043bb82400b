//! The targets of a cluster with their mail.

ghost use Rattle.std.specs.Prelude.{◌≡◌, ◌≤◌, ◌<◌, ◌+◌, ◌++◌, List, length, OnOk};
ghost use Rattle.target_turns.specs.Disks.{calls_of};
ghost use Rattle.scenario_text.specs.declared.line.Line.{Line};
ghost use Rattle.cluster_core.specs.Cluster.{AreTouched, target_at};
ghost use Rattle.cluster_core.specs.Commands.{Commits, Begins, crashed, crash_lines};
ghost use Rattle.target_turns.specs.Showing.{shows_log};

use cluster_mail::Mail;
use fid_space::Cluster;
use outside::Plant;
use scenario_text::Lines;
use std::alloc::{AllocError as Memory, Global};
use std::marker::Model;
use target_turns::Target;

/// The targets, each under its number, and all messages that were ever sent.
#[derive(Drop)]
pub struct Members<D: Plant> {
    pub alloc: Global,
    pub cluster: Cluster,
    pub targets: Vec<Target<D>>,
    pub mail: Mail,
}

impl<D: Plant> Model for Members<D> {
    ghost use Rattle.std.specs.Coded.{codes};
    ghost use Rattle.object_store.specs.Objects.{coded_objects};
    ghost use Rattle.commit_sharing.specs.Pending.{coded_writers};
    ghost use Rattle.plan_base.specs.Planners.{coded_planning};
    ghost use Rattle.cluster_core.specs.Cluster.{Cluster, ArePlaced};

    ghost Value = { Cluster };

    ghost coded = { Prim.hlevel (codes, coded_objects, coded_writers, coded_planning) };

    ghost view = { λ c. record { targets = c.targets.items; sent = c.mail } };

    ghost invariant = { λ c. ArePlaced c.cluster c.targets.items };
}

impl<D: Plant> Members<D> {
    /// How many targets there are.
    pub fn count(&self) -> u8
        ensures count { result ≡ length self.now.targets }
        ensures some { 1 ≤ result }
        ensures most { result ≤ 16 }
    {
        self.cluster.targets()
    }

    /// Stops a target, and adds the line that says so, or what it does where it is down.
    pub fn crash(&mut self, target: u8, lines: &mut Lines) -> Result<(), Memory>
        requires { target < length self.old.targets }
        ensures after { OnOk result (self.new ≡ crashed self.old target) }
        ensures lines { OnOk result (lines.new ≡ lines.old ++ crash_lines self.old target) }
        ensures touched { AreTouched self.old.targets self.new.targets }
    {
        self.targets[target as usize].crash(lines)
    }

    /// Commits a target, or adds what it does where it doesn't serve.
    pub fn commit(&mut self, target: u8, lines: &mut Lines) -> Result<(), Memory>
        requires { target < length self.old.targets }
        ensures does { OnOk result ((ls : List Line) × Commits self.old target self.new ls × (lines.new ≡ lines.old ++ ls)) }
        ensures touched { AreTouched self.old.targets self.new.targets }
    {
        self.targets[target as usize].commit(&mut self.mail, lines)
    }

    /// Starts a target from its disk, or adds what it does where it isn't down.
    pub fn restart(&mut self, target: u8, lines: &mut Lines) -> Result<(), Memory>
        requires { target < length self.old.targets }
        ensures does { OnOk result ((ls : List Line) × Begins (calls_of D.cycled D.armed) self.old target self.new ls × (lines.new ≡ lines.old ++ ls)) }
        ensures touched { AreTouched self.old.targets self.new.targets }
    {
        self.targets[target as usize].restart(lines)
    }

    /// Arms the disk of a target.
    pub fn arm(&mut self, target: u8, after: u32, choice: u8)
        requires { target < length self.old.targets }
        ensures same { self.new ≡ self.old }
        ensures armed { D.armed after choice (target_at self.old.targets target).disk }
    {
        self.targets[target as usize].arm(after, choice);
    }

    /// Adds the lines of a target's log, or what it does where it is down.
    pub fn show_log(&self, target: u8, lines: &mut Lines) -> Result<(), Memory>
        requires { target < length self.now.targets }
        ensures { OnOk result (lines.new ≡ lines.old ++ shows_log (target_at self.now.targets target)) }
    {
        self.targets[target as usize].show_log(lines)
    }
}
