//! A scenario while it is played on a cluster.

ghost use Rattle.std.specs.Prelude.{◌≡◌, ◌≢◌, ◌++◌, ◌↔◌, ℕ, [], List, length, map, true, false, IsTrue, OnOk, OnErr, IsErr, Err};
ghost use Rattle.scenario_text.specs.Spelling.{Entry, IsCommand, line_of};
ghost use Rattle.scenario_text.specs.Machine.{MayCome};
ghost use Rattle.scenario_text.specs.LineText.{texts};
ghost use Rattle.scenario_text.specs.declared.command.Command.{Command};
ghost use Rattle.scenario_text.specs.declared.line.Line.{Line};
ghost use Rattle.target_turns.specs.Disks.{calls_of};
ghost use Rattle.cluster_player.specs.Requests.{was_sent};
ghost use Rattle.cluster_player.specs.Played.{disks_in, nothing_played};
ghost use Rattle.cluster_player.specs.Disks.{AreKept};
ghost use Rattle.cluster_player.specs.Commanded.{IsOrder, Obeys, Orders};
ghost use Rattle.cluster_player.specs.Taken.{Does, HaveRoom, IsBad, MayFollow, NamesSent, Stands, Takes, player_ended, player_leaves, player_takes};

use crate::orders::{again, order, send};
use crate::requests::Requests;
use cluster_core::Core;
use fid_space::{Bytes, Cluster};
use line_player::LineRunner;
use outside::Plant;
use scenario_text::{Command, Lines, TextFault, is_skipped};
use std::alloc::{AllocError as Memory, Global};
use std::marker::Model;
use std::mem;
use tree_model::Request;

/// How many bytes all messages may have before a command.
const MOST_BYTES: u64 = 1_073_741_824;

/// A scenario while it is played on a cluster over sixteen disks. After want of memory no line is taken any more, and
/// it can only give back its disks.
#[derive(Drop)]
pub struct Player<D: Plant> {
    alloc: Global,
    cluster: Option<Cluster>,
    ended: bool,
    // a line wanted memory
    spent: bool,
    requests: Requests,
    // all of them before the cluster is made, and then none
    disks: Vec<D>,
    core: Option<Core<D>>,
}

impl<D: Plant> Model for Player<D> {
    ghost use Rattle.std.specs.Prelude.{map};
    ghost use Rattle.std.specs.Coded.{codes};
    ghost use Rattle.object_store.specs.Objects.{coded_objects};
    ghost use Rattle.commit_sharing.specs.Pending.{coded_writers};
    ghost use Rattle.plan_base.specs.Planners.{coded_planning};
    ghost use Rattle.cluster_player.specs.Requests.{coded_messages};
    ghost use Rattle.cluster_player.specs.Played.{Playing, IsWhole, cluster_in, spare_in};

    ghost Value = { Playing };

    ghost coded = { Prim.hlevel (codes, coded_objects, coded_writers, coded_planning, coded_messages) };

    ghost view = { λ p. record { count = p.cluster; ended = p.ended; messages = p.requests; cluster = cluster_in p.core; spare = spare_in p.core (map D.shown p.disks.items); spent = p.spent } };

    ghost invariant = { λ p. IsWhole p.cluster p.requests p.core (map D.shown p.disks.items) p.spent };
}

impl<D: Plant> Player<D> {
    /// A player that has read no line, over sixteen disks.
    pub fn new(alloc: Global, disks: Vec<D>) -> Player<D>
        requires { length disks.items ≡ 16 }
        ensures { result ≡ nothing_played (map D.shown disks.items) }
    {
        Player {
            alloc,
            cluster: None,
            ended: false,
            spent: false,
            requests: Requests::new(alloc),
            disks,
            core: None,
        }
    }

    /// Gives all sixteen disks back, in their order.
    pub fn into_disks(self) -> Vec<D>
        ensures disks { map D.shown result.items ≡ disks_in self }
        ensures sixteen { length result.items ≡ 16 }
    {
        let Player { disks, core, .. } = self;
        match core {
            Some(core) => core.into_disks(),
            None => disks,
        }
    }

    /// How many messages were sent.
    fn sent(&self) -> u32
        ensures { result ≡ length self.now.cluster.sent }
    {
        match &self.core {
            Some(core) => core.sent(),
            None => 0,
        }
    }

    /// Whether the messages leave room for a command.
    fn has_room(&self) -> bool
        ensures { IsTrue result ↔ HaveRoom self.now.cluster.sent }
    {
        match &self.core {
            Some(core) => core.message_bytes() <= MOST_BYTES,
            None => true,
        }
    }

    /// Whether a request had the number.
    fn was_sent(&self, number: u32) -> bool
        ensures { result ≡ was_sent self.now.messages number }
    {
        self.requests.message(number).is_some()
    }

    /// Whether the message that a command names was sent.
    fn names_sent(&self, command: &Command) -> bool
        ensures { IsTrue result ↔ NamesSent self.now.cluster.sent command.now }
    {
        match command {
            Command::Deliver(k) => 1 <= *k && *k <= self.sent(),
            Command::Drop(k) => 1 <= *k && *k <= self.sent(),
            _ => true,
        }
    }

    /// Whether the command may come now, whatever it names.
    fn may_come(&self, command: &Command) -> bool
        ensures { IsTrue result ↔ MayCome self.now.count self.now.ended (was_sent self.now.messages) command.now }
    {
        let open = self.cluster.is_some() && !self.ended;
        match command {
            Command::Cluster(_) => self.cluster.is_none(),
            Command::Send(request) => open && !self.was_sent(request.number),
            Command::Again(number) => open && self.was_sent(*number),
            Command::Deliver(_) => open,
            Command::Drop(_) => open,
            Command::Settle => open,
            Command::Resend => open,
            Command::List => open,
            Command::Log(_) => open,
            Command::Tree => open,
            Command::End => open,
            Command::Commit(_) => open,
            Command::Crash(_) => open,
            Command::Restart(_) => open,
            Command::Fuse { .. } => open,
        }
    }

    /// Whether the command may come now.
    fn may_follow(&self, command: &Command) -> bool
        ensures { IsTrue result ↔ MayFollow self.now command.now }
    {
        self.may_come(command) && self.names_sent(command) && self.has_room()
    }

    /// Makes the cluster.
    fn found(&mut self, cluster: Cluster, lines: &mut Lines) -> Result<(), Memory>
        requires going { self.old.spent ≡ false }
        requires fits { IsCommand self.old.count (Command.Cluster cluster) }
        requires comes { MayFollow self.old (Command.Cluster cluster) }
        ensures does { OnOk result ((ls : List Line) × Obeys (calls_of D.cycled D.armed) self.old (Command.Cluster cluster) self.new ls × (lines.new ≡ lines.old ++ ls)) }
        ensures memory { OnErr result (self.new.spent ≡ true) }
        ensures kept { AreKept (disks_in self.old) (disks_in self.new) }
    {
        let disks = mem::replace(&mut self.disks, Vec::new(self.alloc));
        match Core::new(self.alloc, cluster, disks) {
            Ok(core) => {
                let mut core = core;
                let founded = core.found(lines);
                self.cluster = Some(cluster);
                self.core = Some(core);
                self.spent = founded.is_err();
                founded
            }
            Err(disks) => {
                self.disks = disks;
                self.spent = true;
                Err(Memory)
            }
        }
    }

    /// Sends a request.
    fn send(&mut self, request: &Request) -> Result<(), Memory>
        requires going { self.old.spent ≡ false }
        requires fits { IsCommand self.old.count (Command.Send request.now) }
        ensures does { OnOk result (Obeys (calls_of D.cycled D.armed) self.old (Command.Send request.now) self.new []) }
        ensures memory { OnErr result (self.new.spent ≡ true) }
        ensures kept { AreKept (disks_in self.old) (disks_in self.new) }
    {
        match &mut self.core {
            Some(core) => {
                let done = send(&mut self.requests, core, request);
                self.spent = done.is_err();
                done
            }
            None => unreachable!(),
        }
    }

    /// Sends a request that was sent once more.
    fn again(&mut self, number: u32) -> Result<(), Memory>
        requires going { self.old.spent ≡ false }
        requires comes { MayFollow self.old (Command.Again number) }
        ensures does { OnOk result (Obeys (calls_of D.cycled D.armed) self.old (Command.Again number) self.new []) }
        ensures memory { OnErr result (self.new.spent ≡ true) }
        ensures kept { AreKept (disks_in self.old) (disks_in self.new) }
    {
        match &mut self.core {
            Some(core) => {
                let done = again(&self.requests, core, number);
                self.spent = done.is_err();
                done
            }
            None => unreachable!(),
        }
    }

    /// Does what a command about messages or targets asks of the cluster, and adds the lines that come of it.
    fn order(&mut self, command: &Command, lines: &mut Lines) -> Result<(), Memory>
        requires going { self.old.spent ≡ false }
        requires order { IsOrder command.now }
        requires fits { IsCommand self.old.count command.now }
        requires comes { MayFollow self.old command.now }
        ensures does { OnOk result ((ls : List Line) × Orders (calls_of D.cycled D.armed) self.old.cluster command.now self.new.cluster ls × (lines.new ≡ lines.old ++ ls)) }
        ensures same { OnOk result (self.new ≡ record self.old { cluster = self.new.cluster }) }
        ensures memory { OnErr result (self.new.spent ≡ true) }
        ensures kept { AreKept (disks_in self.old) (disks_in self.new) }
    {
        match &mut self.core {
            Some(core) => {
                let done = order(self.alloc, core, command, lines);
                self.spent = done.is_err();
                done
            }
            None => unreachable!(),
        }
    }

    /// Ends the scenario.
    fn end(&mut self, lines: &mut Lines) -> Result<(), Memory>
        requires going { self.old.spent ≡ false }
        requires comes { MayFollow self.old Command.End }
        ensures does { OnOk result ((ls : List Line) × Obeys (calls_of D.cycled D.armed) self.old Command.End self.new ls × (lines.new ≡ lines.old ++ ls)) }
        ensures memory { OnErr result (self.new.spent ≡ true) }
        ensures kept { AreKept (disks_in self.old) (disks_in self.new) }
    {
        self.order(&Command::End, lines)?;
        self.ended = true;
        Ok(())
    }

    /// Does what a command asks for, and adds the lines that come of it.
    fn obey(&mut self, command: &Command, lines: &mut Lines) -> Result<(), Memory>
        requires going { self.old.spent ≡ false }
        requires fits { IsCommand self.old.count command.now }
        requires comes { MayFollow self.old command.now }
        ensures does { OnOk result ((ls : List Line) × Obeys (calls_of D.cycled D.armed) self.old command.now self.new ls × (lines.new ≡ lines.old ++ ls)) }
        ensures memory { OnErr result (self.new.spent ≡ true) }
        ensures kept { AreKept (disks_in self.old) (disks_in self.new) }
    {
        match command {
            Command::Cluster(cluster) => self.found(*cluster, lines),
            Command::Send(request) => self.send(request),
            Command::Again(number) => self.again(*number),
            Command::End => self.end(lines),
            _ => self.order(command, lines),
        }
    }

    /// Takes a line that is skipped: none may stand behind `end`.
    fn skip(&self) -> Result<(), TextFault>
        ensures ok { OnOk result (self.now.ended ≡ false) }
        ensures refused { IsErr result → self.now.ended ≡ true }
        ensures memory { result ≢ Err TextFault.Memory }
    {
        if self.ended {
            return Err(TextFault::NotYet);
        }
        Ok(())
    }

    /// Plays a command, and adds its text.
    fn play(&mut self, command: &Command, out: &mut Bytes) -> Result<(), Memory>
        requires going { self.old.spent ≡ false }
        requires fits { IsCommand self.old.count command.now }
        requires comes { MayFollow self.old command.now }
        ensures does { OnOk result ((ls : List Line) × Obeys (calls_of D.cycled D.armed) self.old command.now self.new ls × (out.new ≡ out.old ++ texts ls)) }
        ensures kept { AreKept (disks_in self.old) (disks_in self.new) }
    {
        let mut lines = Lines::new(self.alloc);
        self.obey(command, &mut lines)?;
        lines.print(out)
    }

    /// Takes a line where no line before it wanted memory.
    fn take(&mut self, line: &[u8], out: &mut Bytes) -> Result<(), TextFault>
        requires going { self.old.spent ≡ false }
        ensures ok { OnOk result ((e : Entry) × (ls : List Line) × Stands self.old e × (line.now ≡ line_of e)
            × Does (calls_of D.cycled D.armed) self.old e self.new ls × (out.new ≡ out.old ++ texts ls)) }
        ensures refused { result ≡ Err TextFault.NotYet → IsBad self.old line.now }
        ensures same { result ≡ Err TextFault.NotYet → self.new ≡ self.old }
        ensures kept { AreKept (disks_in self.old) (disks_in self.new) }
    {
        if is_skipped(line) {
            return self.skip();
        }
        let command = match Command::parse(self.alloc, line, self.cluster) {
            Ok(command) => command,
            Err(fault) => return Err(fault),
        };
        if !self.may_follow(&command) {
            return Err(TextFault::NotYet);
        }
        match self.play(&command, out) {
            Ok(()) => Ok(()),
            Err(_) => Err(TextFault::Memory),
        }
    }

    /// Plays a line, and adds its text. A line that is refused changes nothing. After want of memory every further
    /// line wants it too, and the player can only give back its disks.
    pub fn run_line(&mut self, line: &[u8], out: &mut Bytes) -> Result<(), TextFault>
        ensures ok { OnOk result ((text : List ℕ) × Takes (calls_of D.cycled D.armed) self.old self.new line.now text × (out.new ≡ out.old ++ text)) }
        ensures refused { result ≡ Err TextFault.NotYet → IsBad self.old line.now }
        ensures same { result ≡ Err TextFault.NotYet → self.new ≡ self.old }
        ensures memory { result ≡ Err TextFault.Memory → self.new.spent ≡ true }
        ensures spent { self.old.spent ≡ true → result ≡ Err TextFault.Memory }
        ensures kept { AreKept (disks_in self.old) (disks_in self.new) }
    {
        if self.spent {
            return Err(TextFault::Memory);
        }
        match self.take(line, out) {
            Ok(()) => Ok(()),
            Err(TextFault::NotYet) => Err(TextFault::NotYet),
            Err(TextFault::Memory) => {
                self.spent = true;
                Err(TextFault::Memory)
            }
        }
    }
}

impl<D: Plant> LineRunner for Player<D> {
    ghost takes = { player_takes (calls_of D.cycled D.armed) };

    ghost refuses = { IsBad };

    ghost leaves = { player_leaves };

    ghost ended = { player_ended };

    fn take_line(&mut self, line: &[u8], out: &mut Bytes) -> Result<(), TextFault> {
        self.run_line(line, out)
    }

    fn has_ended(&self) -> bool {
        self.ended
    }
}
