ghost use Rattle.std.specs.Prelude.{◌≡◌, ◌<◌, ◌≤◌, ◌+◌, ◌-◌, ◌^◌, ◌++◌, ◌∷◌, [], Some, None, length, map, filter, IfOk, OnOk, if◌then◌else◌, ◌==◌};
ghost use Rattle.update_coordinator.specs.declared.words.Action.TheVariants as actions;
ghost use Rattle.plan_base.specs.Planners.{FitsNeed};
ghost use Rattle.update_coordinator.specs.Planned.{FitsDecided, FitsStep};
ghost use Rattle.update_record.specs.Spelling.{FitsRecord};
ghost use Rattle.update_coordinator.specs.Coordinating.{Coordinating, first_coordinating};
ghost use Rattle.update_coordinator.specs.Fitting.{IsRequest, FitsDecision, FitsWaits, FitsCourse, FitsGoing, FitsCurrent, FitsAction, MayHear};
ghost use Rattle.update_coordinator.specs.Rules.{room_for, full, next_sync, is_busy, with_flight, executed_by, released_by, goes, ends, record_of, accepts, syncs, rooms, settles, needs, decides, follows, first_course, started, fact_for, synced_for, gives_up, on_down, heard};

use crate::copies::copy_record;
use crate::course::{alone, full, is_read, room_for, stamp_of, unheld, unsynced};
use crate::flights::Flights;
use crate::words::{Accepted, Action, Course, Event, Flight, Going, Held, Waits};
use fid_space::{Cluster, Targets};
use std::alloc::{AllocError as Memory, Global};
use std::marker::Model;
use striped_dir::{Decision, Need, Step};
use tree_model::Request;
use update_record::{Facts, OpId, Record};

/// The home of requests.
#[derive(Drop)]
pub struct Coordinator {
    pub(crate) alloc: Global,
    pub(crate) cluster: Cluster,
    pub(crate) master: u8,
    pub(crate) epoch: u32,
    pub(crate) attempts: u64,
    pub(crate) asks: u32,
    pub(crate) current: Option<Going>,
    pub(crate) flights: Flights,
    pub(crate) released: Targets,
    pub(crate) batches: Vec<Targets>,
    pub(crate) stable: [u64; 16],
    pub(crate) mark: u64,
}

impl Model for Coordinator {
    ghost use Rattle.std.specs.Prelude.{◌<◌, ◌≤◌, length};
    ghost use Rattle.std.specs.Coded.{codes};
    ghost use Rattle.plan_base.specs.Planners.{coded_planning};
    ghost use Rattle.update_coordinator.specs.Coordinating.{Coordinating};
    ghost use Rattle.update_coordinator.specs.Fitting.{FitsCurrent};

    ghost Value = { Coordinating };

    ghost coded = { Prim.hlevel (codes, coded_planning) };

    ghost view = { λ c. record { targets = c.cluster; master = c.master; epoch = c.epoch; attempts = c.attempts; asks = c.asks; current = c.current; flights = c.flights; released = c.released; batches = c.batches.items; stable = c.stable; mark = c.mark } };

    ghost invariant = { λ c. (c.master < 16) × (1 ≤ c.epoch) × FitsCurrent c.cluster c.master (length c.batches.items) c.current };
}

impl Coordinator {
    /// Keeps the attempt that is under way.
    fn keep(&mut self, course: Course, waits: Waits)
        requires fits { FitsCourse self.old.targets self.old.master (length self.old.batches) course }
        requires waits { FitsWaits course waits }
        ensures { self.new ≡ record self.old { current = Some (record { course = course; waits = waits }) } }
    {
        let old = self.current.replace(Going { course, waits });
        drop(old);
    }

    /// No attempt is under way.
    fn rest(&mut self)
        ensures { self.new ≡ record self.old { current = None } }
    {
        let old = self.current.take();
        drop(old);
    }

    /// Takes out the attempt that is under way.
    fn take(&mut self) -> Option<Going>
        ensures going { result ≡ self.old.current }
        ensures fits { FitsCurrent self.old.targets self.old.master (length self.old.batches) result }
        ensures after { self.new ≡ record self.old { current = None } }
    {
        self.current.take()
    }

    /// The next attempt, which has asked nothing.
    fn begin(&mut self)
        requires { self.old.attempts < 2 ^ 63 }
        ensures { self.new ≡ record self.old { attempts = self.old.attempts + 1; asks = 0; released = 0 } }
    {
        self.attempts += 1;
        self.asks = 0;
        self.released = Targets::none();
    }

    /// The next ask, where it is another target's.
    fn count_ask(&mut self, target: u8)
        requires { self.old.asks < 2 ^ 32 - 1 }
        ensures { self.new ≡ record self.old { asks = if target == self.old.master then self.old.asks else self.old.asks + 1 } }
    {
        if target != self.master {
            self.asks += 1;
        }
    }

    /// The next batch.
    fn add_batch(&mut self, on: Targets) -> Result<(), Memory>
        requires { self.old.current ≡ None }
        ensures { OnOk result (self.new ≡ record self.old { batches = self.old.batches ++ on ∷ [] }) }
    {
        self.batches.push(on)?;
        Ok(())
    }

    /// An attempt has ended, and is owed answers.
    fn owe(&mut self, flight: Flight) -> Result<(), Memory>
        ensures { OnOk result (self.new ≡ record self.old { flights = with_flight self.old.flights flight }) }
    {
        self.flights.push(flight)
    }

    /// Where a Release is sent.
    fn set_releases(&mut self, releases: Targets)
        ensures { self.new ≡ record self.old { released = releases } }
    {
        self.released = releases;
    }

    fn hear_executed(&mut self, target: u8, attempt: u64)
        requires { target < 16 }
        ensures { self.new ≡ record self.old { flights = filter is_busy (map (executed_by target attempt) self.old.flights) } }
    {
        self.flights.hear_executed(target, attempt);
    }

    fn hear_released(&mut self, target: u8, attempt: u64)
        requires { target < 16 }
        ensures { self.new ≡ record self.old { flights = filter is_busy (map (released_by target attempt) self.old.flights) } }
    {
        self.flights.hear_released(target, attempt);
    }
}

impl Coordinator {
    /// The attempt waits for a target.
    fn go(&mut self, course: Course, target: u8, waits: Waits, action: Action) -> Action
        requires asks { self.old.asks < 2 ^ 32 - 1 }
        requires fits { FitsCourse self.old.targets self.old.master (length self.old.batches) course }
        requires waits { FitsWaits course waits }
        requires action { FitsAction action }
        ensures action { result ≡ (goes self.old course target waits action).action }
        ensures after { self.new ≡ (goes self.old course target waits action).after }
        ensures fits { FitsAction result }
    {
        self.count_ask(target);
        self.keep(course, waits);
        action
    }

    /// The attempt ends, and these targets are sent a Release.
    fn end(&mut self, course: &Course, releases: Targets, action: Action) -> Result<Action, Memory>
        requires { FitsAction action }
        ensures action { IfOk result (λ a. a ≡ (ends self.old course.now releases action).action) }
        ensures after { OnOk result (self.new ≡ (ends self.old course.now releases action).after) }
        ensures fits { IfOk result FitsAction }
    {
        self.owe(Flight {
            attempt: self.attempts,
            number: course.request.number,
            accepted: None,
            executes: Targets::none(),
            releases,
        })?;
        self.rest();
        self.set_releases(releases);
        Ok(action)
    }

    /// The record of a decision, with the next batch.
    #[tactic(auto, using(crate::proofs::Recorded::recorded))]
    fn entry(&self, course: &Course, decision: Decision) -> Record
        requires fits { FitsCourse self.now.targets self.now.master (length self.now.batches) course.now }
        requires decision { FitsDecision course.now decision }
        ensures value { result ≡ record_of self.now course.now decision }
        ensures fits { FitsRecord result }
    {
        Record {
            id: OpId {
                epoch: self.epoch(),
                master: self.master,
                batch: self.batches.len() as u64 + 1,
            },
            stamp: stamp_of(course.held.items()),
            number: course.request.number,
            client: course.request.client,
            reply: decision.reply,
            parts: decision.parts,
        }
    }

    /// The operation is accepted.
    #[tactic(auto, unfolding(crate::specs::Rules::accepts))]
    fn accept(&mut self, course: &Course, decision: Decision) -> Result<Action, Memory>
        requires fits { FitsCourse self.old.targets self.old.master (length self.old.batches) course.now }
        requires decision { FitsDecision course.now decision }
        ensures action { IfOk result (λ a. a ≡ (accepts self.old course.now decision).action) }
        ensures after { OnOk result (self.new ≡ (accepts self.old course.now decision).after) }
        ensures fits { IfOk result FitsAction }
    {
        let on = decision.on;
        let releases = course.asked.minus(on);
        let entry = self.entry(course, decision);
        let copy = copy_record(self.alloc, &entry)?;
        self.rest();
        self.add_batch(on)?;
        self.owe(Flight {
            attempt: self.attempts,
            number: course.request.number,
            accepted: Some(Accepted::new(copy)),
            executes: on.minus(alone(self.master)),
            releases,
        })?;
        self.set_releases(releases);
        Ok(Action::Accept(entry))
    }

    /// The third step of a decision: commits.
    #[tactic(auto, unfolding(crate::specs::Rules::syncs))]
    fn sync(
        &mut self,
        course: Course,
        decision: Decision,
        synced: Targets,
    ) -> Result<Action, Memory>
        requires asks { self.old.asks < 2 ^ 32 - 1 }
        requires fits { FitsCourse self.old.targets self.old.master (length self.old.batches) course }
        requires decision { FitsDecision course decision }
        ensures action { IfOk result (λ a. a ≡ (syncs self.old course decision synced (next_sync course.seen decision.on synced)).action) }
        ensures after { OnOk result (self.new ≡ (syncs self.old course decision synced (next_sync course.seen decision.on synced)).after) }
        ensures fits { IfOk result FitsAction }
    {
        match unsynced(course.seen.items(), decision.on, synced) {
            None => {
                let result = self.accept(&course, decision);
                drop(course);
                result
            }
            Some((target, writer)) => Ok(self.go(
                course,
                target,
                Waits::Sync(decision, synced, target, writer),
                Action::Sync(target, writer),
            )),
        }
    }

    /// The second step: room.
    #[tactic(auto, unfolding(crate::specs::Rules::rooms))]
    fn find_room(
        &mut self,
        course: Course,
        decision: Decision,
        synced: Targets,
    ) -> Result<Action, Memory>
        requires asks { self.old.asks < 2 ^ 32 - 1 }
        requires fits { FitsCourse self.old.targets self.old.master (length self.old.batches) course }
        requires decision { FitsDecision course decision }
        ensures action { IfOk result (λ a. a ≡ (rooms self.old course decision synced (full (room_for course.request.op) course.held decision.parts)).action) }
        ensures after { OnOk result (self.new ≡ (rooms self.old course decision synced (full (room_for course.request.op) course.held decision.parts)).after) }
        ensures fits { IfOk result FitsAction }
    {
        let need = room_for(&course.request.op);
        match full(need, course.held.items(), decision.parts.items()) {
            None => self.sync(course, decision, synced),
            Some((target, load)) => {
                let result = self.end(&course, course.asked, Action::Full(target, load, need));
                drop(course);
                result
            }
        }
    }

    /// A decision of an operation that isn't a read, where these targets have committed. The first step: all
    /// participants are held.
    #[tactic(auto, unfolding(crate::specs::Rules::holds))]
    fn settle(
        &mut self,
        mut course: Course,
        decision: Decision,
        synced: Targets,
    ) -> Result<Action, Memory>
        requires asks { self.old.asks < 2 ^ 32 - 1 }
        requires fits { FitsCourse self.old.targets self.old.master (length self.old.batches) course }
        requires decision { FitsDecision course decision }
        ensures action { IfOk result (λ a. a ≡ (settles self.old course decision synced).action) }
        ensures after { OnOk result (self.new ≡ (settles self.old course decision synced).after) }
        ensures fits { IfOk result FitsAction }
    {
        match unheld(course.held.items(), decision.parts.items()) {
            None => self.find_room(course, decision, synced),
            Some(target) => {
                course.ask(self.master, target);
                Ok(self.go(
                    course,
                    target,
                    Waits::Hold(decision, target),
                    Action::HoldOnly(target),
                ))
            }
        }
    }

    /// The answer to a read.
    fn answer(&mut self, course: Course, decision: Decision) -> Result<Action, Memory>
        ensures action { IfOk result (λ a. a ≡ (ends self.old course course.asked (actions.Answer decision.reply)).action) }
        ensures after { OnOk result (self.new ≡ (ends self.old course course.asked (actions.Answer decision.reply)).after) }
        ensures fits { IfOk result FitsAction }
    {
        let result = self.end(&course, course.asked, Action::Answer(decision.reply));
        drop(course);
        result
    }

    /// A decision of the planner: a read is answered, and anything else is settled.
    fn decide(&mut self, course: Course, decision: Decision) -> Result<Action, Memory>
        requires asks { self.old.asks < 2 ^ 32 - 1 }
        requires fits { FitsCourse self.old.targets self.old.master (length self.old.batches) course }
        requires decision { FitsDecided course.planner decision }
        ensures action { IfOk result (λ a. a ≡ (decides self.old course decision).action) }
        ensures after { OnOk result (self.new ≡ (decides self.old course decision).after) }
        ensures fits { IfOk result FitsAction }
    {
        if is_read(&course.request.op) {
            self.answer(course, decision)
        } else {
            self.settle(course, decision, Targets::none())
        }
    }

    /// A need of the planner: the attempt waits for a look.
    fn need(&mut self, mut course: Course, need: Need) -> Result<Action, Memory>
        requires asks { self.old.asks < 2 ^ 32 - 1 }
        requires fits { FitsCourse self.old.targets self.old.master (length self.old.batches) course }
        requires need { FitsNeed need }
        ensures action { IfOk result (λ a. a ≡ (needs self.old course need).action) }
        ensures after { OnOk result (self.new ≡ (needs self.old course need).after) }
        ensures fits { IfOk result FitsAction }
    {
        let copy = Need {
            target: need.target,
            ask: need.ask.copy(self.alloc)?,
        };
        course.ask(self.master, need.target);
        Ok(self.go(course, need.target, Waits::Look(copy), Action::Ask(need)))
    }

    /// A step of the planner.
    #[tactic(auto, unfolding(crate::specs::Rules::follows))]
    fn follow(&mut self, course: Course, step: Step) -> Result<Action, Memory>
        requires asks { self.old.asks < 2 ^ 32 - 1 }
        requires fits { FitsCourse self.old.targets self.old.master (length self.old.batches) course }
        requires step { FitsStep course.planner step }
        ensures action { IfOk result (λ a. a ≡ (follows self.old course step).action) }
        ensures after { OnOk result (self.new ≡ (follows self.old course step).after) }
        ensures fits { IfOk result FitsAction }
    {
        match step {
            Step::Need(need) => self.need(course, need),
            Step::Decided(decision) => self.decide(course, decision),
        }
    }
}

impl Coordinator {
    /// A coordinator that has made no attempt in its epoch.
    pub fn new(alloc: Global, cluster: Cluster, master: u8, epoch: u32) -> Coordinator
        requires master { master < cluster }
        requires epoch { 1 ≤ epoch }
        ensures { result ≡ first_coordinating cluster master epoch }
    {
        Coordinator {
            alloc,
            cluster,
            master,
            epoch,
            attempts: 0,
            asks: 0,
            current: None,
            flights: Flights::new(alloc),
            released: Targets::none(),
            batches: Vec::new(alloc),
            stable: [0; 16],
            mark: 0,
        }
    }

    /// The course of a request that has come here.
    fn new_course(&self, request: Request, load: u64, clock: u64) -> Result<Course, Memory>
        requires request { IsRequest self.now.targets self.now.master request }
        requires clock { clock < 2 ^ 63 }
        ensures course { IfOk result (λ k. k ≡ first_course self.now request load clock) }
        ensures fits { IfOk result (FitsCourse self.now.targets self.now.master (length self.now.batches)) }
    {
        let home = Held {
            target: self.master,
            load,
            clock,
        };
        Course::new(self.alloc, self.cluster, request, home, self.accepted())
    }

    /// Begins an attempt. After want of memory it is some coordinator.
    #[tactic(auto, using(crate::proofs::Recorded::planned_next, crate::proofs::Recorded::fits_plan))]
    pub fn start(&mut self, request: Request, load: u64, clock: u64) -> Result<Action, Memory>
        requires request { IsRequest self.old.targets self.old.master request }
        requires rests { self.old.current ≡ None }
        requires attempts { self.old.attempts < 2 ^ 63 }
        requires clock { clock < 2 ^ 63 }
        ensures action { IfOk result (λ a. a ≡ (started self.old request load clock).action) }
        ensures after { OnOk result (self.new ≡ (started self.old request load clock).after) }
        ensures fits { IfOk result FitsAction }
    {
        let mut course = self.new_course(request, load, clock)?;
        self.begin();
        let step = course.planner.step(None)?;
        self.follow(course, step)
    }

    /// Facts for what is awaited.
    #[tactic(auto, using(crate::proofs::Recorded::planned_next, crate::proofs::Recorded::fits_plan))]
    fn hear_fact(&mut self, facts: &Facts, going: Going) -> Result<Action, Memory>
        requires asks { self.old.asks < 2 ^ 32 - 1 }
        requires fits { FitsGoing self.old.targets self.old.master (length self.old.batches) going }
        requires clock { facts.now.clock < 2 ^ 63 }
        ensures action { IfOk result (λ a. a ≡ (fact_for self.old going.course facts.now going.waits).action) }
        ensures after { OnOk result (self.new ≡ (fact_for self.old going.course facts.now going.waits).after) }
        ensures fits { IfOk result FitsAction }
    {
        let Going { mut course, waits } = going;
        match waits {
            Waits::Look(need) => {
                course.look(self.master, &need, facts)?;
                let step = course.planner.step(facts.reply.get(0))?;
                self.follow(course, step)
            }
            Waits::Hold(decision, target) => {
                course.tell(self.master, target, facts)?;
                self.settle(course, decision, Targets::none())
            }
            Waits::Sync(decision, synced, target, writer) => {
                self.keep(course, Waits::Sync(decision, synced, target, writer));
                Ok(Action::Nothing)
            }
        }
    }

    /// The target that was asked has committed.
    fn hear_synced(&mut self, going: Going) -> Result<Action, Memory>
        requires asks { self.old.asks < 2 ^ 32 - 1 }
        requires fits { FitsGoing self.old.targets self.old.master (length self.old.batches) going }
        ensures action { IfOk result (λ a. a ≡ (synced_for self.old going.course going.waits).action) }
        ensures after { OnOk result (self.new ≡ (synced_for self.old going.course going.waits).after) }
        ensures fits { IfOk result FitsAction }
    {
        let Going { course, waits } = going;
        match waits {
            Waits::Sync(decision, synced, target, _) => self.settle(
                course,
                decision,
                synced.with(target),
            ),
            Waits::Look(need) => {
                self.keep(course, Waits::Look(need));
                Ok(Action::Nothing)
            }
            Waits::Hold(decision, target) => {
                self.keep(course, Waits::Hold(decision, target));
                Ok(Action::Nothing)
            }
        }
    }

    /// Ends the attempt that is under way, if there is one.
    fn give_up(&mut self, going: Option<Going>, action: Action) -> Result<Action, Memory>
        requires { FitsAction action }
        ensures action { IfOk result (λ a. a ≡ (gives_up self.old going action).action) }
        ensures after { OnOk result (self.new ≡ (gives_up self.old going action).after) }
        ensures fits { IfOk result FitsAction }
    {
        match going {
            None => Ok(Action::Nothing),
            Some(going) => {
                let Going { course, waits } = going;
                drop(waits);
                let result = self.end(&course, course.asked, action);
                drop(course);
                result
            }
        }
    }

    /// Ends the attempt that is under way, if there is one, without a Release to this target.
    fn bounce(&mut self, going: Option<Going>, target: u8) -> Result<Action, Memory>
        requires { target < 16 }
        ensures action { IfOk result (λ a. a ≡ (on_down self.old target going).action) }
        ensures after { OnOk result (self.new ≡ (on_down self.old target going).after) }
        ensures fits { IfOk result FitsAction }
    {
        match going {
            None => Ok(Action::Nothing),
            Some(going) => {
                let Going { course, waits } = going;
                drop(waits);
                let releases = course.asked.minus(alone(target));
                let result = self.end(&course, releases, Action::Recovering(target));
                drop(course);
                result
            }
        }
    }

    /// Hears what it waits for, and goes on. After want of memory it is some coordinator.
    #[tactic(auto, unfolding(crate::specs::Rules::heard))]
    pub fn on(&mut self, event: Event) -> Result<Action, Memory>
        requires asks { self.old.asks < 2 ^ 32 - 1 }
        requires fits { MayHear event }
        ensures action { IfOk result (λ a. a ≡ (heard self.old event).action) }
        ensures after { OnOk result (self.new ≡ (heard self.old event).after) }
        ensures fits { IfOk result FitsAction }
    {
        self.set_releases(Targets::none());
        match event {
            Event::Executed(target, attempt) => {
                self.hear_executed(target, attempt);
                Ok(Action::Nothing)
            }
            Event::Released(target, attempt) => {
                self.hear_released(target, attempt);
                Ok(Action::Nothing)
            }
            Event::Fact(facts) => {
                let going = self.take();
                match going {
                    None => Ok(Action::Nothing),
                    Some(going) => self.hear_fact(&facts, going),
                }
            }
            Event::Synced => {
                let going = self.take();
                match going {
                    None => Ok(Action::Nothing),
                    Some(going) => self.hear_synced(going),
                }
            }
            Event::Busy(holder) => {
                let going = self.take();
                self.give_up(going, Action::Busy(holder))
            }
            Event::Down(target) => {
                let going = self.take();
                self.bounce(going, target)
            }
        }
    }
}
