//! What a home does with a client's request before it makes an attempt.

ghost use Rattle.std.specs.Prelude.{◌≡◌, ◌≤◌, ◌<◌, ◌^◌, ◌++◌, None, map, IfOk, OnOk};
ghost use Rattle.plan_record.specs.Recorded.{reads};
ghost use Rattle.update_coordinator.specs.Fitting.{IsRequest};
ghost use Rattle.cluster_mail.specs.Mail.{fresh};
ghost use Rattle.target_turns.specs.Target.{fate_of};
ghost use Rattle.target_turns.specs.Home.{begins};
ghost use Rattle.target_turns.specs.Turn.{takes_up, judged_for, asked_for};
ghost use Rattle.target_turns.specs.Seen.{served_of, after_ran};
ghost use Rattle.target_turns.specs.Touching.{Touches, RanCauses};

use crate::served::{Ran, Served};
use cluster_mail::Mail;
use out_update::UpdateRequest;
use outside::Disk;
use reply_cache::Judgement;
use scenario_text::{Line, Lines};
use std::alloc::AllocError as Memory;
use tree_model::{Op, Request};

/// The least number that an attempt, and the clock of a target, never has.
const MOST: u64 = 1 << 63;

/// Whether the operation changes nothing, so that no seat is asked.
fn is_read(op: &Op) -> bool
    ensures { result ≡ reads op.now }
{
    match op {
        Op::Lookup { .. } | Op::GetAttr { .. } | Op::GetXattr { .. } => true,
        _ => false,
    }
}

impl<D: Disk> Served<D> {
    /// Whether an attempt can begin: the coordinator is that of this target, and none is under way. Memory is
    /// wanted too where the number of the last attempt, or the clock, is 2^63 or more.
    fn ready(&self) -> Result<(), Memory>
        ensures targets { OnOk result (self.now.coordinator.targets ≡ self.now.cluster) }
        ensures master { OnOk result (self.now.coordinator.master ≡ self.now.index) }
        ensures rests { OnOk result (self.now.coordinator.current ≡ None) }
        ensures attempts { OnOk result (self.now.coordinator.attempts < 2 ^ 63) }
        ensures clock { OnOk result (self.now.node.state.clock < 2 ^ 63) }
    {
        let home = &self.coordinator;
        if home.cluster().targets() != self.cluster.targets() || home.master() != self.index {
            return Err(Memory);
        }
        if !home.is_idle() || home.attempt() >= MOST || self.node.clock() >= MOST {
            return Err(Memory);
        }
        Ok(())
    }

    /// Begins an attempt, which holds this target.
    fn begin(&mut self, request: Request, mail: &mut Mail, lines: &mut Lines) -> Result<Ran, Memory>
        requires here { self.old.index ≤ 15 }
        requires request { IsRequest self.old.cluster self.old.index request }
        ensures after { IfOk result (λ ran. after_ran ran (served_of D.shown self.new) ≡ (begins (served_of D.shown self.old) request (fate_of (after_ran ran (served_of D.shown self.new)))).target) }
        ensures lines { IfOk result (λ ran. lines.new ≡ lines.old ++ (begins (served_of D.shown self.old) request (fate_of (after_ran ran (served_of D.shown self.new)))).lines) }
        ensures sent { IfOk result (λ ran. mail.new ≡ mail.old ++ map fresh (begins (served_of D.shown self.old) request (fate_of (after_ran ran (served_of D.shown self.new)))).sent) }
        ensures touches { Touches (D.shown self.old.node.disk) (D.shown self.new.node.disk) }
        ensures cause { IfOk result (RanCauses (D.shown self.old.node.disk) (D.shown self.new.node.disk)) }
        ensures place { (self.new.cluster ≡ self.old.cluster) × (self.new.index ≡ self.old.index) }
    {
        self.ready()?;
        let number = request.number;
        let load = self.node.load();
        let clock = self.node.clock();
        let action = self.coordinator.start(request, load, clock)?;
        let by = self.own_attempt(number);
        let _ = self.node.hold(by, &UpdateRequest::new(self.alloc))?;
        self.go_on(by, action, mail, lines)
    }

    /// Begins an attempt, where nothing holds this target.
    #[tactic(auto, using(crate::proofs::Holders::held_says, crate::proofs::Holders::free_begins))]
    fn take_up(
        &mut self,
        request: Request,
        mail: &mut Mail,
        lines: &mut Lines,
    ) -> Result<Ran, Memory>
        requires here { self.old.index ≤ 15 }
        requires request { IsRequest self.old.cluster self.old.index request }
        ensures after { IfOk result (λ ran. after_ran ran (served_of D.shown self.new) ≡ (takes_up (served_of D.shown self.old) request (fate_of (after_ran ran (served_of D.shown self.new)))).target) }
        ensures lines { IfOk result (λ ran. lines.new ≡ lines.old ++ (takes_up (served_of D.shown self.old) request (fate_of (after_ran ran (served_of D.shown self.new)))).lines) }
        ensures sent { IfOk result (λ ran. mail.new ≡ mail.old ++ map fresh (takes_up (served_of D.shown self.old) request (fate_of (after_ran ran (served_of D.shown self.new)))).sent) }
        ensures touches { Touches (D.shown self.old.node.disk) (D.shown self.new.node.disk) }
        ensures cause { IfOk result (RanCauses (D.shown self.old.node.disk) (D.shown self.new.node.disk)) }
        ensures place { (self.new.cluster ≡ self.old.cluster) × (self.new.index ≡ self.old.index) }
    {
        let number = request.number;
        match self.node.holder() {
            Some(holder) => {
                lines.push(Line::Busy { number, holder })?;
                Ok(Ran::Stands)
            }
            None => self.begin(request, mail, lines),
        }
    }

    /// Answers from the seat of the client, or takes the request up.
    fn judge(&mut self, request: Request, mail: &mut Mail, lines: &mut Lines) -> Result<Ran, Memory>
        requires here { self.old.index ≤ 15 }
        requires request { IsRequest self.old.cluster self.old.index request }
        ensures after { IfOk result (λ ran. after_ran ran (served_of D.shown self.new) ≡ (judged_for (served_of D.shown self.old) request (fate_of (after_ran ran (served_of D.shown self.new)))).target) }
        ensures lines { IfOk result (λ ran. lines.new ≡ lines.old ++ (judged_for (served_of D.shown self.old) request (fate_of (after_ran ran (served_of D.shown self.new)))).lines) }
        ensures sent { IfOk result (λ ran. mail.new ≡ mail.old ++ map fresh (judged_for (served_of D.shown self.old) request (fate_of (after_ran ran (served_of D.shown self.new)))).sent) }
        ensures touches { Touches (D.shown self.old.node.disk) (D.shown self.new.node.disk) }
        ensures cause { IfOk result (RanCauses (D.shown self.old.node.disk) (D.shown self.new.node.disk)) }
        ensures place { (self.new.cluster ≡ self.old.cluster) × (self.new.index ≡ self.old.index) }
    {
        let number = request.number;
        match self.node.judge(request.client, number) {
            Judgement::New => self.take_up(request, mail, lines),
            Judgement::Repeat(reply) => {
                lines.push(Line::Reply { number, reply })?;
                Ok(Ran::Stands)
            }
            Judgement::Stale(last) => {
                lines.push(Line::Stale { number, last })?;
                Ok(Ran::Stands)
            }
        }
    }

    /// A client asks for an operation.
    pub fn on_request(
        &mut self,
        request: Request,
        mail: &mut Mail,
        lines: &mut Lines,
    ) -> Result<Ran, Memory>
        requires here { self.old.index ≤ 15 }
        requires request { IsRequest self.old.cluster self.old.index request }
        ensures after { IfOk result (λ ran. after_ran ran (served_of D.shown self.new) ≡ (asked_for (served_of D.shown self.old) request (fate_of (after_ran ran (served_of D.shown self.new)))).target) }
        ensures lines { IfOk result (λ ran. lines.new ≡ lines.old ++ (asked_for (served_of D.shown self.old) request (fate_of (after_ran ran (served_of D.shown self.new)))).lines) }
        ensures sent { IfOk result (λ ran. mail.new ≡ mail.old ++ map fresh (asked_for (served_of D.shown self.old) request (fate_of (after_ran ran (served_of D.shown self.new)))).sent) }
        ensures touches { Touches (D.shown self.old.node.disk) (D.shown self.new.node.disk) }
        ensures cause { IfOk result (RanCauses (D.shown self.old.node.disk) (D.shown self.new.node.disk)) }
        ensures place { (self.new.cluster ≡ self.old.cluster) × (self.new.index ≡ self.old.index) }
    {
        if is_read(&request.op) {
            return self.take_up(request, mail, lines);
        }
        self.judge(request, mail, lines)
    }
}
