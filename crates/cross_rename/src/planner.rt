ghost use Rattle.std.specs.Prelude.{◌≡◌, None, IfOk, OnOk};
ghost use Rattle.std.specs.Option.{option_map};
ghost use Rattle.plan_base.specs.Stops.{Reaches};
ghost use Rattle.plan_base.specs.Heard.{IsHeard};
ghost use Rattle.plan_base.specs.Told.{untold};
ghost use Rattle.plan_base.specs.Fitting.{fits_asked};
ghost use Rattle.plan_base.specs.Planners.{reached, step_after, after_fact, IsAsked};
ghost use Rattle.cross_rename.specs.Moves.{IsRename};
ghost use Rattle.cross_rename.specs.Kept.{MayKeep};

use crate::renames::rename;
use crate::walks::Walked;
use fid_space::Cluster;
use out_update::UpdateResult;
use plan_base::{Outcome, PlanState, Stop};
use std::alloc::{AllocError as Memory, Global};
use std::marker::Model;
use striped_dir::Step;
use tree_model::Op;

/// Plans one rename, over any number of targets.
#[derive(Drop)]
pub struct RenamePlanner {
    state: PlanState,
    /// How far the walk came; none before it begins, and after want of memory.
    walked: Option<Walked>,
}

impl Model for RenamePlanner {
    ghost use Rattle.cross_rename.specs.Kept.{Keeps};
    ghost use Rattle.plan_base.specs.Planners.{Planning, coded_planning};

    ghost Value = { Planning };

    ghost coded = { coded_planning };

    ghost view = { λ p. p.state };

    ghost invariant = { λ p. Keeps p.state p.walked };
}

impl RenamePlanner {
    /// A planner of a rename, whose updates have this batch. Nothing was told, and no question waits.
    pub fn start(
        alloc: Global,
        cluster: Cluster,
        op: &Op,
        batch: u64,
    ) -> Result<RenamePlanner, Memory>
        requires { IsRename op.now }
        ensures { IfOk result (λ p. p ≡ record { targets = cluster; op = op.now; batch = batch; told = untold; asked = None }) }
    {
        Ok(RenamePlanner {
            state: PlanState::new(alloc, cluster, op, batch)?,
            walked: None,
        })
    }

    /// Whether the last need may have this result. None may where there is no last need.
    pub fn fits(&self, fact: &UpdateResult) -> bool
        ensures { result ≡ fits_asked self.now.asked fact.now }
    {
        self.state.fits(fact)
    }

    /// Hears the answer to the last need, which the first step hasn't, and goes on to the next need or to the
    /// decision. An answer that doesn't fit tells that nothing is there. Without an answer to the last need it
    /// is asked for again. After want of memory it is some planner.
    pub fn step(&mut self, fact: Option<&UpdateResult>) -> Result<Step, Memory>
        ensures step { IfOk result (λ s. s ≡ step_after self.old (option_map (λ r. r.now) fact.entry)) }
        // A need has a spelling, of a read type, and is for a target below 16.
        ensures need { IfOk result IsAsked }
        ensures planner { OnOk result (self.new ≡ after_fact self.old (option_map (λ r. r.now) fact.entry)) }
        // What was told was heard in results.
        ensures heard { OnOk result (IsHeard self.new.told) }
    {
        let mut walked = self.walked.take();
        self.state.hear(fact)?;
        let outcome = outcome(&self.state, &mut walked);
        let step = self.state.go_on(outcome)?;
        self.walked = walked;
        Ok(step)
    }
}

/// How far the checks of the rename come.
fn outcome(plan: &PlanState, walked: &mut Option<Walked>) -> Result<Outcome, Stop>
    requires { MayKeep plan.now.told walked.old }
    ensures reaches { Reaches (λ x. x) result (reached plan.now.targets plan.now.batch plan.now.op plan.now.told) }
    ensures walked { MayKeep plan.now.told walked.new }
{
    match plan.op() {
        Op::Rename {
            parent,
            name,
            to_parent,
            to_name,
        } => rename(plan, walked, *parent, name, *to_parent, to_name),
        // `start` takes no other.
        _ => Err(Stop::Memory),
    }
}
