ghost use Rattle.std.specs.Prelude.{◌≡◌, None, IfOk, OnOk};
ghost use Rattle.std.specs.Option.{option_map};
ghost use Rattle.plan_base.specs.Stops.{Reaches};
ghost use Rattle.plan_base.specs.Heard.{IsHeard};
ghost use Rattle.plan_base.specs.Told.{untold};
ghost use Rattle.plan_base.specs.Fitting.{fits_asked};
ghost use Rattle.plan_base.specs.Planners.{reached, step_after, after_fact, IsAsked};
ghost use Rattle.op_plan.specs.Ops.{IsPlanned};

use crate::entries::{create, link, lookup, mkdir, rmdir, unlink};
use crate::nodes::{get_access, get_value, set_access, set_value, take_value};
use fid_space::Cluster;
use out_update::UpdateResult;
use plan_base::{Outcome, PlanState, Stop};
use std::alloc::{AllocError as Memory, Global};
use std::marker::Model;
use striped_dir::Step;
use tree_model::Op;

/// Plans one operation that is no rename and no migrate.
#[derive(Drop)]
pub struct Planner {
    state: PlanState,
}

impl Model for Planner {
    ghost use Rattle.plan_base.specs.Planners.{Planning, coded_planning};

    ghost Value = { Planning };

    ghost coded = { coded_planning };

    ghost view = { λ p. p.state };
}

impl Planner {
    /// A planner of an operation, whose updates have this batch. Nothing was told, and no question waits.
    pub fn start(alloc: Global, cluster: Cluster, op: &Op, batch: u64) -> Result<Planner, Memory>
        requires { IsPlanned op.now }
        ensures { IfOk result (λ p. p ≡ record { targets = cluster; op = op.now; batch = batch; told = untold; asked = None }) }
    {
        Ok(Planner {
            state: PlanState::new(alloc, cluster, op, batch)?,
        })
    }

    /// Whether the last need may have this result. None may where there is no last need.
    pub fn fits(&self, fact: &UpdateResult) -> bool
        ensures { result ≡ fits_asked self.now.asked fact.now }
    {
        self.state.fits(fact)
    }

    /// Hears the answer to the last need, which the first step hasn't, and goes on to the next need or to the
    /// decision. An answer that doesn't fit tells that nothing is there. Without an answer to the last need it
    /// is asked for again. After want of memory it is some planner.
    pub fn step(&mut self, fact: Option<&UpdateResult>) -> Result<Step, Memory>
        ensures step { IfOk result (λ s. s ≡ step_after self.old (option_map (λ r. r.now) fact.entry)) }
        // A need has a spelling, of a read type, and is for a target below 16.
        ensures need { IfOk result IsAsked }
        ensures planner { OnOk result (self.new ≡ after_fact self.old (option_map (λ r. r.now) fact.entry)) }
        // What was told was heard in results.
        ensures heard { OnOk result (IsHeard self.new.told) }
    {
        self.state.hear(fact)?;
        let outcome = outcome(&self.state);
        self.state.go_on(outcome)
    }
}

/// How far the checks of the operation come.
fn outcome(plan: &PlanState) -> Result<Outcome, Stop>
    ensures { Reaches (λ x. x) result (reached plan.now.targets plan.now.batch plan.now.op plan.now.told) }
{
    match plan.op() {
        Op::Create { parent, name, fid } => create(plan, *parent, name, *fid),
        Op::Mkdir {
            parent,
            name,
            fid,
            stripes,
        } => mkdir(plan, *parent, name, *fid, *stripes),
        Op::Rmdir { parent, name } => rmdir(plan, *parent, name),
        Op::SetXattr { fid, name, value } => set_value(plan, *fid, name, value),
        Op::Lookup { parent, name } => lookup(plan, *parent, name),
        Op::Link { parent, name, fid } => link(plan, *parent, name, *fid),
        Op::Unlink { parent, name } => unlink(plan, *parent, name),
        Op::SetAttr {
            fid,
            mode,
            uid,
            gid,
        } => set_access(plan, *fid, *mode, *uid, *gid),
        Op::DelXattr { fid, name } => take_value(plan, *fid, name),
        Op::GetAttr { fid } => get_access(plan, *fid),
        Op::GetXattr { fid, name } => get_value(plan, *fid, name),
        // `start` takes neither.
        Op::Rename { .. } | Op::Migrate { .. } => Err(Stop::Memory),
    }
}
