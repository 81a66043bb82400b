ghost use Rattle.std.specs.Prelude.{◌≡◌, None, IfOk, OnOk};
ghost use Rattle.std.specs.Option.{option_map};
ghost use Rattle.plan_base.specs.Stops.{Reaches};
ghost use Rattle.plan_base.specs.Heard.{IsHeard};
ghost use Rattle.plan_base.specs.Told.{untold};
ghost use Rattle.plan_base.specs.Fitting.{fits_asked};
ghost use Rattle.plan_base.specs.Planners.{reached, step_after, after_fact, IsAsked};
ghost use Rattle.dir_migrate.specs.Migrations.{IsMigrate};

use crate::migrates::migrate;
use fid_space::Cluster;
use out_update::UpdateResult;
use plan_base::{Outcome, PlanState, Stop};
use std::alloc::{AllocError as Memory, Global};
use std::marker::Model;
use striped_dir::Step;
use tree_model::Op;

/// Plans one migrate of a directory.
#[derive(Drop)]
pub struct MigratePlanner {
    state: PlanState,
}

impl Model for MigratePlanner {
    ghost use Rattle.plan_base.specs.Planners.{Planning, coded_planning};

    ghost Value = { Planning };

    ghost coded = { coded_planning };

    ghost view = { λ p. p.state };
}

impl MigratePlanner {
    /// A planner of a migrate, whose updates have this batch. Nothing was told, and no question waits.
    pub fn start(
        alloc: Global,
        cluster: Cluster,
        op: &Op,
        batch: u64,
    ) -> Result<MigratePlanner, Memory>
        requires { IsMigrate op.now }
        ensures { IfOk result (λ p. p ≡ record { targets = cluster; op = op.now; batch = batch; told = untold; asked = None }) }
    {
        Ok(MigratePlanner {
            state: PlanState::new(alloc, cluster, op, batch)?,
        })
    }

    /// Whether the last need may have this result. None may where there is no last need.
    pub fn fits(&self, fact: &UpdateResult) -> bool
        ensures { result ≡ fits_asked self.now.asked fact.now }
    {
        self.state.fits(fact)
    }

    /// Hears the answer to the last need, which the first step hasn't, and goes on to the next need or to the
    /// decision. An answer that doesn't fit tells of what it has up to the first byte that can't stand. Without
    /// an answer to the last need it is asked for again. After want of memory it is some planner.
    pub fn step(&mut self, fact: Option<&UpdateResult>) -> Result<Step, Memory>
        ensures step { IfOk result (λ s. s ≡ step_after self.old (option_map (λ r. r.now) fact.entry)) }
        // A need has a spelling, of a read type, and is for a target below 16.
        ensures need { IfOk result IsAsked }
        ensures planner { OnOk result (self.new ≡ after_fact self.old (option_map (λ r. r.now) fact.entry)) }
        // What was told was heard in results.
        ensures heard { OnOk result (IsHeard self.new.told) }
    {
        self.state.hear(fact)?;
        let outcome = outcome(&self.state);
        self.state.go_on(outcome)
    }
}

/// How far the checks of the migrate come.
fn outcome(plan: &PlanState) -> Result<Outcome, Stop>
    ensures { Reaches (λ x. x) result (reached plan.now.targets plan.now.batch plan.now.op plan.now.told) }
{
    match plan.op() {
        Op::Migrate { dir, count, index } => migrate(plan, *dir, *count, *index),
        // `start` takes no other.
        _ => Err(Stop::Memory),
    }
}
