//! A target of a cluster: it serves, or was opened, or is down. Contracts see a plain record, by which it has a new
//! node and knows of no requests where it doesn't serve.

ghost use Rattle.std.specs.Prelude.{◌≡◌, ◌++◌, true, false, OnOk};
ghost use Rattle.std.specs.Option.{option_map, option_copied};
ghost use Rattle.scenario_text.specs.declared.line.Line.TheVariants as lines;
ghost use Rattle.target_turns.specs.Target.{serves, target_down};
ghost use Rattle.target_turns.specs.Seen.{after_ran};
ghost use Rattle.outside.specs.Disk.{Shown};
ghost use Rattle.target_turns.specs.Touching.{RanCauses};
ghost use Rattle.target_turns.specs.Commanded.{StopsOnly};
ghost use Rattle.target_turns.specs.Placing.{halted_of};
ghost use Rattle.target_turns.specs.Founding.{stopped, crashes};
ghost use Rattle.target_turns.specs.Showing.{is_down, objects_of};

use crate::served::{Ran, Served};
use fid_space::Cluster;
use object_store::Objects;
use outside::Plant;
use scenario_text::{Line, Lines, Standing};
use std::alloc::{AllocError as Memory, Global};
use std::marker::Model;
use target_node::Node;

/// A disk without its target, and whether a formatting of it went well and none failed since.
#[derive(Drop)]
pub struct Halted<D: Plant> {
    pub disk: D,
    pub formatted: bool,
}

/// What a target does.
#[derive(Drop)]
pub enum State<D: Plant> {
    /// It takes messages.
    Serving(Served<D>),
    /// It was restarted, and has only read its disk.
    Opened(Node<D>),
    /// It has stopped.
    Down(Halted<D>),
}

impl<D: Plant> Halted<D> {
    /// A disk without its target.
    pub(crate) fn new(disk: D, formatted: bool) -> Halted<D>
        ensures { result ≡ record { disk = disk; formatted = formatted } }
    {
        Halted { disk, formatted }
    }
}

impl<D: Plant> State<D> {
    /// Drops all but the disk.
    pub(crate) fn into_halted(self) -> Halted<D>
        ensures { result ≡ halted_of self }
    {
        match self {
            State::Serving(served) => Halted::new(served.node.crash(), true),
            State::Opened(node) => Halted::new(node.crash(), true),
            State::Down(halted) => halted,
        }
    }
}

/// A target with its place in a cluster. After want of memory it is some target over the same disk.
#[derive(Drop)]
pub struct Target<D: Plant> {
    pub(crate) alloc: Global,
    pub(crate) cluster: Cluster,
    pub(crate) index: u8,
    // None only within a call
    pub(crate) state: Option<State<D>>,
}

impl<D: Plant> Model for Target<D> {
    ghost use Rattle.std.specs.Coded.{codes};
    ghost use Rattle.object_store.specs.Objects.{coded_objects};
    ghost use Rattle.commit_sharing.specs.Pending.{coded_writers};
    ghost use Rattle.plan_base.specs.Planners.{coded_planning};
    ghost use Rattle.target_turns.specs.Target.{Target};
    ghost use Rattle.target_turns.specs.Placing.{target_of, IsPlaced};

    ghost Value = { Target };

    ghost coded = { Prim.hlevel (codes, coded_objects, coded_writers, coded_planning) };

    ghost view = { λ t. target_of D.shown t.cluster t.index t.state };

    ghost invariant = { λ t. IsPlaced t.cluster t.index t.state };
}

impl<D: Plant> Target<D> {
    /// A target that is down, whose disk wasn't formatted.
    pub fn new(alloc: Global, cluster: Cluster, index: u8, disk: D) -> Target<D>
        ensures { result ≡ target_down cluster index false (D.shown disk) }
    {
        Target {
            alloc,
            cluster,
            index,
            state: Some(State::Down(Halted::new(disk, false))),
        }
    }

    /// What it does.
    pub fn standing(&self) -> Standing
        ensures { result ≡ self.now.standing }
    {
        match &self.state {
            Some(State::Serving(_)) => Standing::Serving,
            Some(State::Opened(_)) => Standing::Opened,
            Some(State::Down(_)) => Standing::Down,
            None => unreachable!(),
        }
    }

    /// Whether it serves.
    pub fn is_serving(&self) -> bool
        ensures { result ≡ serves self.now }
    {
        match &self.state {
            Some(State::Serving(_)) => true,
            Some(State::Opened(_)) => false,
            Some(State::Down(_)) => false,
            None => unreachable!(),
        }
    }

    /// Whether it is down.
    pub fn is_down(&self) -> bool
        ensures { result ≡ is_down self.now.standing }
    {
        match &self.state {
            Some(State::Serving(_)) => false,
            Some(State::Opened(_)) => false,
            Some(State::Down(_)) => true,
            None => unreachable!(),
        }
    }

    /// The number of the request that holds it.
    pub fn holder(&self) -> Option<u32>
        ensures { result ≡ option_map (λ h. h.number) self.now.node.holder }
    {
        match &self.state {
            Some(State::Serving(served)) => served.node.holder(),
            Some(State::Opened(node)) => node.holder(),
            Some(State::Down(_)) => None,
            None => unreachable!(),
        }
    }

    /// Lends its objects, where it isn't down.
    pub fn objects(&self) -> Option<&Objects>
        ensures { option_copied result ≡ objects_of self.now }
    {
        match &self.state {
            Some(State::Serving(served)) => Some(served.node.objects()),
            Some(State::Opened(node)) => Some(node.objects()),
            Some(State::Down(_)) => None,
            None => unreachable!(),
        }
    }

    /// Gives the disk back.
    #[tactic(auto, using(crate::proofs::Placed::placed_disk))]
    pub fn into_disk(self) -> D
        ensures { D.shown result ≡ self.disk }
    {
        match self.state {
            Some(state) => state.into_halted().disk,
            None => unreachable!(),
        }
    }

    /// The line that says what it does.
    pub(crate) fn state_line(&self) -> Line
        ensures { result ≡ lines.State self.now.index self.now.standing }
    {
        Line::State {
            target: self.index,
            standing: self.standing(),
        }
    }

    /// Stops it.
    #[tactic(auto, using(crate::proofs::Placed::placed_stops, crate::proofs::Placed::placed_formatted))]
    fn stop(&mut self)
        ensures after { self.new ≡ stopped self.old }
        ensures formatted { serves self.old ≡ true → self.old.formatted ≡ true }
    {
        match self.state.take() {
            Some(state) => self.state = Some(State::Down(state.into_halted())),
            None => unreachable!(),
        }
    }

    /// Stops it where its disk failed.
    pub(crate) fn settle(&mut self, ran: Ran)
        requires { serves self.old ≡ true }
        ensures after { self.new ≡ after_ran ran self.old }
        ensures disk { self.new.disk ≡ self.old.disk }
        ensures place { (self.new.targets ≡ self.old.targets) × (self.new.index ≡ self.old.index) }
        ensures stops { (before : Shown) → RanCauses before self.old.disk ran → StopsOnly true (serves self.new) before self.new.disk }
    {
        match ran {
            Ran::Stands => {}
            Ran::Stopped => self.stop(),
        }
    }

    /// Stops it, and adds the line that says so, or what it does where it is down.
    pub fn crash(&mut self, lines: &mut Lines) -> Result<(), Memory>
        ensures after { OnOk result (self.new ≡ (crashes self.old).target) }
        ensures lines { OnOk result (lines.new ≡ lines.old ++ (crashes self.old).lines) }
        ensures disk { self.new.disk ≡ self.old.disk }
        ensures place { (self.new.targets ≡ self.old.targets) × (self.new.index ≡ self.old.index) }
    {
        if self.is_down() {
            return lines.push(self.state_line());
        }
        self.stop();
        lines.push(Line::Down(self.index))
    }

    /// Arms its disk, as [`Plant::arm`] does, and changes nothing else.
    pub fn arm(&mut self, after: u32, choice: u8)
        ensures same { self.new ≡ self.old }
        ensures armed { D.armed after choice self.old.disk }
    {
        match &mut self.state {
            Some(State::Serving(served)) => served.node.arm(after, choice),
            Some(State::Opened(node)) => node.arm(after, choice),
            Some(State::Down(halted)) => halted.disk.arm(after, choice),
            None => unreachable!(),
        }
    }
}
