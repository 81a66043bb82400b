ghost use Rattle.std.specs.Prelude.{◌≡◌};
ghost use Rattle.update_record.specs.Spelling.{FitsRecord};

use crate::lists::{HeldList, SeenList};
use crate::planning::AnyPlanner;
use fid_space::Targets;
use std::marker::Model;
use striped_dir::{Decision, Need};
use tree_model::{Reply, Request};
use update_record::{Facts, Record};

/// What a home hears.
#[derive(Debug, Drop)]
pub enum Event {
    /// The answer to a look, or to a hold without a look.
    Fact(Facts),
    /// The target that was asked is held by this request.
    Busy(u32),
    /// The target that was asked doesn't serve.
    Down(u8),
    /// The target that was asked has committed.
    Synced,
    /// The target has executed its part of this attempt's operation.
    Executed(u8, u64),
    /// The target has let go of this attempt.
    Released(u8, u64),
}

/// What a home does next.
#[derive(Debug, Drop)]
pub enum Action {
    /// Asks a target, which may be the home itself.
    Ask(Need),
    /// Holds a target without asking anything.
    HoldOnly(u8),
    /// Makes a target commit, where this request wrote. It may be the home itself.
    Sync(u8, u32),
    /// The operation is accepted.
    Accept(Record),
    /// The answer to a read.
    Answer(Reply),
    /// The attempt has ended: a target is held by this request.
    Busy(u32),
    /// The attempt has ended: a target of this load has no room for so many bytes more.
    Full(u8, u64, u64),
    /// The attempt has ended: a target doesn't serve.
    Recovering(u8),
    /// Nothing is to be done.
    Nothing,
}

/// A held target, with its load and its clock as it told them.
#[derive(Clone, Copy, Debug)]
pub struct Held {
    pub target: u8,
    pub load: u64,
    pub clock: u64,
}

/// An attempt so far.
#[derive(Drop)]
pub struct Course {
    /// What is asked for.
    pub request: Request,
    /// What was told so far, and what comes next.
    pub planner: AnyPlanner,
    /// The looks, with the writers.
    pub seen: SeenList,
    /// The held targets, the home first.
    pub held: HeldList,
    /// The targets that were sent a Hold.
    pub asked: Targets,
}

/// What an attempt waits for.
#[derive(Drop)]
pub enum Waits {
    /// The answer to a look.
    Look(Need),
    /// A target without a look, after the decision.
    Hold(Decision, u8),
    /// The commit of a target where this request wrote, after the decision; these have committed.
    Sync(Decision, Targets, u8, u32),
}

/// An attempt that is under way.
#[derive(Drop)]
pub struct Going {
    pub course: Course,
    pub waits: Waits,
}

/// The record of an operation that was accepted.
#[derive(Drop)]
pub struct Accepted {
    entry: Record,
}

impl Model for Accepted {
    ghost use Rattle.update_record.specs.declared.operation.Record.{Record};
    ghost use Rattle.update_record.specs.Spelling.{FitsRecord};

    ghost Value = { Record };

    ghost view = { λ a. a.entry };

    ghost invariant = { λ a. FitsRecord a.entry };
}

impl Accepted {
    /// A record that has a spelling.
    pub fn new(entry: Record) -> Accepted
        requires { FitsRecord entry }
        ensures { result ≡ entry }
    {
        Accepted { entry }
    }

    /// Lends the record.
    pub fn entry(&self) -> &Record
        ensures value { result.now ≡ self.now }
        ensures fits { FitsRecord result.now }
    {
        &self.entry
    }
}

/// An attempt that has ended, with the targets that owe an answer.
#[derive(Drop)]
pub struct Flight {
    /// Its number.
    pub attempt: u64,
    /// The number of its request.
    pub number: u32,
    /// Its record, where it was accepted.
    pub accepted: Option<Accepted>,
    /// The targets whose Executed hasn't come.
    pub executes: Targets,
    /// The targets whose Released hasn't come.
    pub releases: Targets,
}
