ghost use Rattle.std.specs.Prelude.{◌≡◌, ◌<◌, ◌∷◌, [], Some, None, IfOk, OnOk, true};
ghost use Rattle.std.specs.Option.{option_map};
ghost use Rattle.out_update.specs.declared.shape.Shape.TheVariants as shape;
ghost use Rattle.out_update.specs.Types.{is_read, shapes};
ghost use Rattle.out_update.specs.Spelling.{FitsParams, FitsUpdate};
ghost use Rattle.tree_model.specs.declared.reply.Reply.TheVariants as replies;
ghost use Rattle.plan_base.specs.Heard.{IsHeard};
ghost use Rattle.plan_base.specs.Stops.{Reaches};
ghost use Rattle.plan_base.specs.Told.{untold};
ghost use Rattle.plan_base.specs.Planners.{need_of, told_after, decision_of, refusal_of, reached, step_at, asked_at, IsAsked};
ghost use Rattle.plan_base.specs.Fitting.{fits_asked};

use crate::facts::Facts;
use crate::fitting::fits_question;
use crate::gathering::parts_of;
use crate::listed::listed_in;
use crate::outcome::Outcome;
use crate::parsing::{attribute_in, child_in, entries_in, node_in};
use crate::places::{count_at, entry_at, node_place};
use crate::question::{Question, Stop};
use crate::seen::{CountFact, EntryFact, NamesFact, ValueFact};
use crate::updates::{Maker, copied};
use fid_space::{Cluster, Fid, locate};
use out_update::{Kind, Params, Parts, Update, UpdateResult};
use std::alloc::{AllocError as Memory, Global};
use std::marker::Model;
use striped_dir::{Decision, Need, Step};
use tree_model::{Errno, Name, Op, Reply};

/// How far a planner is: the operation, its batch, what was told, and the question that waits for an answer.
#[derive(Drop)]
pub struct PlanState {
    alloc: Global,
    cluster: Cluster,
    op: Op,
    batch: u64,
    facts: Facts,
    asked: Option<Question>,
}

impl Model for PlanState {
    ghost use Rattle.plan_base.specs.Heard.{IsHeard};
    ghost use Rattle.plan_base.specs.Planners.{Planning, coded_planning};

    ghost Value = { Planning };

    ghost coded = { coded_planning };

    ghost view = { λ p. record { targets = p.cluster; op = p.op; batch = p.batch; told = p.facts; asked = p.asked } };

    ghost invariant = { λ p. IsHeard p.facts };
}

impl PlanState {
    /// The allocator that it takes memory from, which is the program's only one.
    pub fn alloc(&self) -> Global
        ensures { (other : Global) → result ≡ other }
    {
        self.alloc
    }

    /// The cluster.
    pub fn cluster(&self) -> Cluster
        ensures { result ≡ self.now.targets }
    {
        self.cluster
    }

    /// The operation.
    pub fn op(&self) -> &Op
        ensures { result.now ≡ self.now.op }
    {
        &self.op
    }

    /// What was told.
    pub fn facts(&self) -> &Facts
        ensures { result.now ≡ self.now.told }
    {
        &self.facts
    }

    /// The maker of its updates.
    pub fn maker(&self) -> Maker
        ensures { result.batch ≡ self.now.batch }
    {
        Maker {
            alloc: self.alloc,
            batch: self.batch,
        }
    }

    /// The beginning of a plan: nothing was told, and no question waits.
    pub fn new(alloc: Global, cluster: Cluster, op: &Op, batch: u64) -> Result<PlanState, Memory>
        ensures { IfOk result (λ p. p ≡ record { targets = cluster; op = op.now; batch = batch; told = untold; asked = None }) }
    {
        Ok(PlanState {
            alloc,
            cluster,
            op: op.copy()?,
            batch,
            facts: Facts::new(alloc),
            asked: None,
        })
    }

    /// Keeps the answer to the question that waits, if there are both. After want of memory it is some state.
    pub fn hear(&mut self, fact: Option<&UpdateResult>) -> Result<(), Memory>
        ensures { OnOk result (self.new ≡ record self.old { told = told_after self.old.told self.old.asked (option_map (λ r. r.now) fact.entry); asked = None }) }
    {
        let Some(question) = self.asked.take() else {
            return Ok(());
        };
        let Some(fact) = fact else {
            return Ok(());
        };
        match question {
            Question::Node(fid) => self.facts.tell_node(fid, node_in(fact)),
            Question::Entry(directory, _, name) => self.facts.tell_entry(EntryFact {
                directory,
                name,
                child: child_in(fact),
            }),
            Question::Count(directory, _, index) => self.facts.tell_count(CountFact {
                directory,
                index,
                entries: entries_in(fact),
            }),
            Question::Value(fid, name) => {
                let value = attribute_in(self.alloc, fact)?;
                self.facts.tell_value(ValueFact { fid, name, value })
            }
            Question::Names(directory, _, index) => {
                let entries = listed_in(self.alloc, fact)?;
                self.facts.tell_names(NamesFact {
                    directory,
                    index,
                    entries,
                })
            }
        }
    }

    /// Goes on with what the checks of the operation come to: to the next need, or to the decision. After want
    /// of memory it is some state.
    pub fn go_on(&mut self, outcome: Result<Outcome, Stop>) -> Result<Step, Memory>
        requires { Reaches (λ x. x) outcome (reached self.old.targets self.old.batch self.old.op self.old.told) }
        ensures step { IfOk result (λ s. s ≡ step_at self.old.targets self.old.op (reached self.old.targets self.old.batch self.old.op self.old.told)) }
        // A need has a spelling, is a question, and is for a target that there may be.
        ensures need { IfOk result IsAsked }
        // What was told was heard in results.
        ensures heard { IsHeard self.new.told }
        ensures state { OnOk result (self.new ≡ record self.old { asked = asked_at (reached self.old.targets self.old.batch self.old.op self.old.told) }) }
    {
        match outcome {
            Ok(outcome) => {
                self.asked = None;
                Ok(Step::Decided(self.decision(outcome)?))
            }
            Err(Stop::Ask(question)) => {
                let need = self.need(&question)?;
                self.asked = Some(question);
                Ok(Step::Need(need))
            }
            Err(Stop::Refused(errno)) => {
                self.asked = None;
                Ok(Step::Decided(self.refusal(errno)?))
            }
            Err(Stop::Memory) => Err(Memory),
        }
    }

    /// Whether the question that waits may have this result. None may where no question waits.
    pub fn fits(&self, fact: &UpdateResult) -> bool
        ensures { result ≡ fits_asked self.now.asked fact.now }
    {
        match &self.asked {
            Some(question) => fits_question(question, fact),
            None => false,
        }
    }

    /// A question as an update of a read type, with the target that it goes to.
    #[tactic(auto, unfolding(out_update::specs::Spelling::FitsParams))]
    fn need(&self, question: &Question) -> Result<Need, Memory>
        ensures fits { IfOk result (λ n. FitsUpdate n.ask) }
        ensures read { IfOk result (λ n. is_read n.ask.kind ≡ true) }
        ensures below { IfOk result (λ n. n.target < 16) }
        ensures value { IfOk result (λ n. n ≡ need_of self.now.targets question.now) }
    {
        let cluster = self.cluster();
        match question {
            Question::Node(fid) => Ok(Need {
                target: node_place(cluster, *fid),
                ask: ask(Kind::AttrGet, *fid, Params::new(self.alloc())),
            }),
            Question::Value(fid, name) => Ok(Need {
                target: node_place(cluster, *fid),
                ask: ask(Kind::XattrGet, *fid, self.named(name)?),
            }),
            Question::Entry(directory, layout, name) => {
                let (target, object) = entry_at(cluster, *directory, *layout, name);
                Ok(Need {
                    target,
                    ask: ask(Kind::Lookup, object, self.named(name)?),
                })
            }
            Question::Count(directory, layout, index) => {
                let (target, object) = count_at(cluster, *directory, *layout, *index);
                Ok(Need {
                    target,
                    ask: ask(Kind::Count, object, Params::new(self.alloc())),
                })
            }
            Question::Names(directory, layout, index) => {
                let (target, object) = count_at(cluster, *directory, *layout, *index);
                Ok(Need {
                    target,
                    ask: ask(Kind::Names, object, Params::new(self.alloc())),
                })
            }
        }
    }

    /// The one parameter of a question about a name.
    #[tactic(auto, using(crate::proofs::Names::name_param))]
    fn named(&self, name: &Name) -> Result<Params, Memory>
        ensures value { IfOk result (λ p. p ≡ name.now ∷ []) }
        ensures fits { IfOk result (λ p. FitsParams (shape.Name ∷ []) p) }
    {
        let mut params = Params::new(self.alloc());
        params.push(copied(self.alloc(), name.bytes())?)?;
        Ok(params)
    }

    fn refusal(&self, errno: Errno) -> Result<Decision, Memory>
        ensures { IfOk result (λ d. d ≡ decision_of self.now.targets self.now.op (refusal_of (replies.Err errno))) }
    {
        self.decision(Outcome {
            reply: Reply::Err(errno),
            placed: Parts::new(self.alloc()),
        })
    }

    /// The outcome as a decision: the updates by their targets.
    fn decision(&self, outcome: Outcome) -> Result<Decision, Memory>
        ensures { IfOk result (λ d. d ≡ decision_of self.now.targets self.now.op outcome) }
    {
        let home = locate(self.cluster(), self.op().first_fid()).ok();
        let (parts, on) = parts_of(self.alloc(), self.cluster(), home, &outcome.placed)?;
        Ok(Decision {
            reply: outcome.reply,
            parts,
            on,
        })
    }
}

fn ask(kind: Kind, fid: Fid, params: Params) -> Update
    requires read { is_read kind ≡ true }
    requires params { FitsParams (shapes kind) params }
    ensures fits { FitsUpdate result }
    ensures read { is_read result.kind ≡ true }
    ensures value { result ≡ record { kind = kind; batch = 0; fid = fid; params = params } }
{
    Update {
        kind,
        batch: 0,
        fid,
        params,
    }
}
