ghost use Rattle.std.specs.Prelude.{◌≡◌, IfOk, OnOk};
ghost use Rattle.std.specs.Option.{option_map};
ghost use Rattle.plan_base.specs.Heard.{IsHeard};
ghost use Rattle.plan_base.specs.Planners.{step_after, after_fact, IsAsked};
ghost use Rattle.update_coordinator.specs.Planned.{first_planning, planning_of, FitsPlan, FitsStep};

use cross_rename::RenamePlanner;
use dir_migrate::MigratePlanner;
use fid_space::Cluster;
use op_plan::Planner;
use out_update::UpdateResult;
use plan_record::decisions_are_recorded;
use std::alloc::{AllocError as Memory, Global};
use std::marker::Model;
use striped_dir::Step;
use tree_model::Op;

/// The planner of an operation, by its kind.
#[derive(Drop)]
pub enum Which {
    /// Of all others.
    Plain(Planner),
    /// Of a rename.
    Rename(RenamePlanner),
    /// Of a migrate.
    Migrate(MigratePlanner),
}

/// The planner of any operation.
#[derive(Drop)]
pub struct AnyPlanner {
    which: Which,
}

impl Model for AnyPlanner {
    ghost use Rattle.plan_base.specs.Planners.{Planning, coded_planning};
    ghost use Rattle.update_coordinator.specs.Planned.{planning_of};

    ghost Value = { Planning };

    ghost coded = { coded_planning };

    ghost view = { λ p. planning_of p.which };
}

impl AnyPlanner {
    /// A planner of an operation whose updates have this batch.
    pub fn start(alloc: Global, cluster: Cluster, op: &Op, batch: u64) -> Result<AnyPlanner, Memory>
        ensures { IfOk result (λ p. p ≡ first_planning cluster op.now batch) }
    {
        let which = match op {
            Op::Rename { .. } => Which::Rename(RenamePlanner::start(alloc, cluster, op, batch)?),
            Op::Migrate { .. } => Which::Migrate(MigratePlanner::start(alloc, cluster, op, batch)?),
            _ => Which::Plain(Planner::start(alloc, cluster, op, batch)?),
        };
        Ok(AnyPlanner { which })
    }

    /// One step of the planner, whichever it is.
    fn go(&mut self, fact: Option<&UpdateResult>) -> Result<Step, Memory>
        ensures step { IfOk result (λ s. s ≡ step_after self.old (option_map (λ r. r.now) fact.entry)) }
        ensures need { IfOk result IsAsked }
        ensures planner { OnOk result (self.new ≡ after_fact self.old (option_map (λ r. r.now) fact.entry)) }
        ensures heard { OnOk result (IsHeard self.new.told) }
    {
        match &mut self.which {
            Which::Plain(planner) => planner.step(fact),
            Which::Rename(planner) => planner.step(fact),
            Which::Migrate(planner) => planner.step(fact),
        }
    }

    /// Hears the answer to the last need, which the first step hasn't, and goes on. After want of memory it is
    /// some planner.
    #[tactic(auto, using(crate::proofs::Stepping::step_fits))]
    pub fn step(&mut self, fact: Option<&UpdateResult>) -> Result<Step, Memory>
        requires { FitsPlan self.old }
        ensures step { IfOk result (λ s. s ≡ step_after self.old (option_map (λ r. r.now) fact.entry)) }
        ensures planner { OnOk result (self.new ≡ after_fact self.old (option_map (λ r. r.now) fact.entry)) }
        ensures heard { OnOk result (IsHeard self.new.told) }
        ensures fits { IfOk result (FitsStep self.old) }
    {
        decisions_are_recorded();
        self.go(fact)
    }
}
