ghost use Rattle.std.specs.Prelude.{◌≡◌, ◌<◌, ◌+◌, ◌^◌, All, IfOk, OnOk};
ghost use Rattle.update_coordinator.specs.declared.words.Held.{Held};
ghost use Rattle.update_coordinator.specs.Fitting.{IsRequest, FitsCourse};
ghost use Rattle.update_coordinator.specs.Rules.{asking, course_of, told, looked};

use crate::lists::{HeldList, SeenList};
use crate::planning::AnyPlanner;
use crate::words::{Course, Held};
use fid_space::{Cluster, Targets};
use std::alloc::{AllocError as Memory, Global};
use striped_dir::Need;
use tree_model::Request;
use update_record::Facts;

impl Course {
    /// The course of a request that has come to its home, which has accepted so many batches.
    #[tactic(auto, using(crate::proofs::Recorded::planned_first))]
    pub fn new(
        alloc: Global,
        cluster: Cluster,
        request: Request,
        home: Held,
        batches: u64,
    ) -> Result<Course, Memory>
        requires request { IsRequest cluster home.target request }
        requires clock { home.clock < 2 ^ 63 }
        requires batches { batches + 1 < 2 ^ 64 }
        ensures course { IfOk result (λ k. k ≡ course_of cluster request home (batches + 1)) }
        ensures fits { IfOk result (FitsCourse cluster home.target batches) }
    {
        let mut held = HeldList::new(alloc);
        held.push(home)?;
        let planner = AnyPlanner::start(alloc, cluster, &request.op, batches + 1)?;
        Ok(Course {
            request,
            planner,
            seen: SeenList::new(alloc),
            held,
            asked: Targets::none(),
        })
    }

    /// A target told, which is held from then on. The home told when the attempt began.
    pub fn tell(&mut self, master: u8, target: u8, facts: &Facts) -> Result<(), Memory>
        requires fits { All (λ (h : Held). h.clock < 2 ^ 63) self.old.held }
        requires clock { facts.now.clock < 2 ^ 63 }
        ensures told { OnOk result (self.new ≡ told master self.old target facts.now) }
        ensures fits { OnOk result (All (λ (h : Held). h.clock < 2 ^ 63) self.new.held) }
    {
        if target != master {
            self.held.push(Held {
                target,
                load: facts.load,
                clock: facts.clock,
            })?;
        }
        Ok(())
    }

    /// A look was answered.
    pub fn look(&mut self, master: u8, need: &Need, facts: &Facts) -> Result<(), Memory>
        requires fits { All (λ (h : Held). h.clock < 2 ^ 63) self.old.held }
        requires clock { facts.now.clock < 2 ^ 63 }
        ensures looked { OnOk result (self.new ≡ looked master self.old need.now facts.now) }
        ensures fits { OnOk result (All (λ (h : Held). h.clock < 2 ^ 63) self.new.held) }
    {
        self.tell(master, need.target, facts)?;
        self.seen.push(need.target, need.ask.fid, facts.writer)
    }

    /// A target is sent a Hold, if it isn't the home.
    pub fn ask(&mut self, master: u8, target: u8)
        requires { target < 16 }
        ensures { self.new ≡ asking master self.old target }
    {
        if target != master {
            self.asked = self.asked.with(target);
        }
    }
}
