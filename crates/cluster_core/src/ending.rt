//! How a cluster begins and ends.

ghost use Rattle.std.specs.Prelude.{◌≡◌, ◌⊎◌, ◌<◌, ◌++◌, List, length, OnOk, IfOk};
ghost use Rattle.scenario_text.specs.declared.line.Line.{Line};
ghost use Rattle.target_turns.specs.Target.{serves};
ghost use Rattle.cluster_core.specs.Cluster.{AreTouched, target_at};
ghost use Rattle.cluster_core.specs.Commands.{Commits};
ghost use Rattle.cluster_core.specs.Ends.{Ends, IsClean, IsBroken};
ghost use Rattle.cluster_core.specs.Founding.{FoundsAt, AllFounded, founding_lines};

use crate::members::Members;
use outside::Plant;
use scenario_text::{Line, Lines};
use std::alloc::AllocError as Memory;

impl<D: Plant> Members<D> {
    /// Formats the disk of a target, which serves then or is down.
    fn found_one(&mut self, target: u8) -> Result<(), Memory>
        requires { target < length self.old.targets }
        ensures does { OnOk result (FoundsAt self.old target self.new) }
        ensures touched { AreTouched self.old.targets self.new.targets }
    {
        self.targets[target as usize].found()
    }

    /// Formats the disk of a target, which serves then, or is down, and a line says so.
    fn found_at(&mut self, target: u8, lines: &mut Lines) -> Result<(), Memory>
        requires { target < length self.old.targets }
        ensures does { OnOk result (FoundsAt self.old target self.new) }
        ensures lines { OnOk result (lines.new ≡ lines.old ++ founding_lines target (target_at self.new.targets target)) }
        ensures touched { AreTouched self.old.targets self.new.targets }
    {
        self.found_one(target)?;
        if self.is_serving(u32::from(target)) {
            return Ok(());
        }
        lines.push(Line::Down(target))
    }

    /// Formats the disks of all targets.
    pub fn found(&mut self, lines: &mut Lines) -> Result<(), Memory>
        ensures does { OnOk result ((ls : List Line) × AllFounded self.old self.new ls × (lines.new ≡ lines.old ++ ls)) }
        ensures touched { AreTouched self.old.targets self.new.targets }
    {
        for target in 0..self.count() {
            self.found_at(target, lines)?;
        }
        Ok(())
    }

    /// Commits a target, and answers whether it serves then.
    fn commit_last(&mut self, target: u8, lines: &mut Lines) -> Result<bool, Memory>
        requires { target < length self.old.targets }
        ensures does { OnOk result ((ls : List Line) × Commits self.old target self.new ls × (lines.new ≡ lines.old ++ ls)) }
        ensures serves { IfOk result (λ stands. stands ≡ serves (target_at self.new.targets target)) }
        ensures touched { AreTouched self.old.targets self.new.targets }
    {
        self.commit(target, lines)?;
        Ok(self.is_serving(u32::from(target)))
    }

    /// Commits all targets, one after another, until one stops.
    fn commit_each(&mut self, lines: &mut Lines) -> Result<(), Memory>
        ensures does { OnOk result ((ls : List Line) × (IsClean self.old self.new ls ⊎ IsBroken self.old self.new ls) × (lines.new ≡ lines.old ++ ls)) }
        ensures touched { AreTouched self.old.targets self.new.targets }
    {
        for target in 0..self.count() {
            if !self.commit_last(target, lines)? {
                return lines.push(Line::EndUnclean(target));
            }
        }
        lines.push(Line::EndClean)
    }

    /// Ends the cluster: each target commits, where all serve and no request is in flight.
    pub fn finish(&mut self, lines: &mut Lines) -> Result<(), Memory>
        ensures does { OnOk result ((ls : List Line) × Ends self.old self.new ls × (lines.new ≡ lines.old ++ ls)) }
        ensures touched { AreTouched self.old.targets self.new.targets }
    {
        if let Some(target) = self.first_resting() {
            return lines.push(Line::EndUnclean(target));
        }
        if let Some(number) = self.first_in_flight() {
            return lines.push(Line::EndUncleanRequest(number));
        }
        self.commit_each(lines)
    }
}
