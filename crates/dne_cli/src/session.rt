ghost use Rattle.std.specs.Prelude.{◌≡◌, ◌≢◌, ◌++◌, [], ◌↔◌, ◌≤◌, List, true, false, IsTrue, IfOk, OnOk, IfErr, IsErr, Err};
ghost use Rattle.scenario_text.specs.Spelling.{Entry, IsCommand, IsPlayed, line_of};
ghost use Rattle.scenario_text.specs.Machine.{MayCome};
ghost use Rattle.scenario_text.specs.LineText.{texts};
ghost use Rattle.scenario_text.specs.declared.command.Command.{Command};
ghost use Rattle.scenario_text.specs.declared.line.Line.{Line};
ghost use Rattle.dne_cli.specs.Disks.{Touches, calls_of};
ghost use Rattle.dne_cli.specs.Kept.{Does, is_used, no_flags, nothing_kept, Obeys, tree_lines, turned_away};
ghost use Rattle.dne_cli.specs.Reached.{IsBad, Stands, session_ended, session_leaves, session_takes};

use crate::ledger::Ledger;
use crate::target::{Halted, Target};
use crate::turns::{commit_target, crash_target, end_target, found_target, restart_target};
use fid_space::{Bytes, Cluster};
use line_player::LineRunner;
use outside::Plant;
use scenario_text::{Command, TextFault, is_skipped, print_recovering, print_tree_state};
use std::alloc::{AllocError as Memory, Global};
use std::marker::Model;
use std::mem;
use tree_model::Request;

/// How many flags there are for the numbers of requests, 0 to 65,536.
const FLAGS: usize = 65_537;

/// A scenario while it is played on one target: its cluster, the numbers that requests had, the requests
/// that aren't delivered yet, and the target.
#[derive(Drop)]
pub struct Session<D: Plant> {
    alloc: Global,
    cluster: Option<Cluster>,
    ended: bool,
    used: Vec<bool>,
    waiting: Vec<Request>,
    // None only within a call
    target: Option<Target<D>>,
}

impl<D: Plant> Model for Session<D> {
    ghost use Rattle.std.specs.Prelude.{◌≡◌, ◌≤◌, ◌+◌, length, is_some, true};
    ghost use Rattle.dne_cli.specs.Kept.{Kept, coded_kept};
    ghost use Rattle.dne_cli.specs.Session.{count_of, marks, target_of};

    ghost Value = { Kept };

    ghost coded = { coded_kept };

    ghost view = { λ s. record { cluster = s.cluster; ended = s.ended; used = s.used.items; waiting = s.waiting.items; target = target_of D.shown s.target } };

    ghost invariant = { λ s. (is_some s.target ≡ true) × (length s.used.items ≡ 65537)
        × (count_of (target_of D.shown s.target) + length s.waiting.items ≤ marks s.used.items) };
}

impl<D: Plant> Session<D> {
    /// A session that has read no line. For want of memory the disk is given back.
    pub fn new(alloc: Global, disk: D) -> Result<Session<D>, D>
        ensures ok { IfOk result (λ s. s ≡ nothing_kept (D.shown disk)) }
        ensures err { IfErr result (λ d. D.shown d ≡ D.shown disk) }
    {
        match flags(alloc, FLAGS) {
            Ok(used) => Ok(Session {
                alloc,
                cluster: None,
                ended: false,
                used,
                waiting: Vec::new(alloc),
                target: Some(Target::Down(Halted {
                    disk,
                    formatted: false,
                })),
            }),
            Err(_) => Err(disk),
        }
    }

    /// Gives the disk back.
    pub fn into_disk(self) -> D
        ensures { D.shown result ≡ self.target.disk }
    {
        let Session { target, .. } = self;
        match target {
            Some(target) => target.into_disk(),
            None => unreachable!(),
        }
    }

    /// Whether a request had the number.
    fn is_used(&self, number: u32) -> bool
        ensures { result ≡ is_used self.now.used number }
    {
        match self.used.get(number as usize) {
            Some(used) => *used,
            None => false,
        }
    }

    /// Whether the command may come now.
    fn may_come(&self, command: &Command) -> bool
        ensures { IsTrue result ↔ MayCome self.now.cluster self.now.ended (is_used self.now.used) command.now }
    {
        let open = self.cluster.is_some() && !self.ended;
        match command {
            Command::Cluster(_) => self.cluster.is_none(),
            Command::Send(request) => open && !self.is_used(request.number),
            Command::Again(number) => open && self.is_used(*number),
            Command::Deliver(_) => open,
            Command::Drop(_) => open,
            Command::Settle => open,
            Command::Resend => open,
            Command::List => open,
            Command::Log(_) => open,
            Command::Tree => open,
            Command::End => open,
            Command::Commit(_) => open,
            Command::Crash(_) => open,
            Command::Restart(_) => open,
            Command::Fuse { .. } => open,
        }
    }

    /// Makes the cluster, with its target.
    fn found(&mut self, cluster: Cluster, out: &mut Bytes) -> Result<(), Memory>
        ensures does { OnOk result ((ls : List Line) × Obeys (calls_of D.cycled D.armed) self.old (Command.Cluster cluster) self.new ls × (out.new ≡ out.old ++ texts ls)) }
        ensures touches { Touches self.old.target.disk self.new.target.disk }
    {
        let ledger = Ledger::new(self.alloc, cluster)?;
        match self.target.take() {
            Some(target) => {
                let (target, printed) = found_target(self.alloc, target, ledger, out);
                self.target = Some(target);
                self.cluster = Some(cluster);
                printed
            }
            None => unreachable!(),
        }
    }

    /// Takes a request, to be delivered by the next settle.
    fn send(&mut self, request: Request) -> Result<(), Memory>
        requires number { request.number ≤ 65536 }
        requires free { is_used self.old.used request.number ≡ false }
        ensures does { OnOk result (Obeys (calls_of D.cycled D.armed) self.old (Command.Send request) self.new []) }
        ensures touches { Touches self.old.target.disk self.new.target.disk }
    {
        let number = request.number as usize;
        self.waiting.push(request)?;
        self.used[number] = true;
        Ok(())
    }

    /// Delivers the requests that wait, in their order.
    fn settle(&mut self, out: &mut Bytes) -> Result<(), Memory>
        ensures does { OnOk result ((ls : List Line) × Obeys (calls_of D.cycled D.armed) self.old Command.Settle self.new ls × (out.new ≡ out.old ++ texts ls)) }
        ensures touches { Touches self.old.target.disk self.new.target.disk }
    {
        let requests = mem::replace(&mut self.waiting, Vec::new(self.alloc));
        match &mut self.target {
            Some(Target::Serving(served)) => served.ledger.serve_all(requests.as_slice(), out),
            _ => turn_away(requests.as_slice(), out),
        }
    }

    /// Shows the tree, where the target serves.
    fn show(&self, out: &mut Bytes) -> Result<(), Memory>
        ensures { OnOk result (out.new ≡ out.old ++ texts (tree_lines self.now.target.ledger)) }
    {
        match &self.target {
            Some(Target::Serving(served)) => served.ledger.show(out),
            _ => print_tree_state(0, out),
        }
    }

    /// Ends the scenario.
    fn end(&mut self, out: &mut Bytes) -> Result<(), Memory>
        ensures does { OnOk result ((ls : List Line) × Obeys (calls_of D.cycled D.armed) self.old Command.End self.new ls × (out.new ≡ out.old ++ texts ls)) }
        ensures touches { Touches self.old.target.disk self.new.target.disk }
    {
        self.ended = true;
        match self.target.take() {
            Some(target) => {
                let (target, printed) = end_target(target, out);
                self.target = Some(target);
                printed
            }
            None => unreachable!(),
        }
    }

    /// Commits the target.
    fn commit(&mut self, number: u8, out: &mut Bytes) -> Result<(), Memory>
        ensures does { OnOk result ((ls : List Line) × Obeys (calls_of D.cycled D.armed) self.old (Command.Commit number) self.new ls × (out.new ≡ out.old ++ texts ls)) }
        ensures touches { Touches self.old.target.disk self.new.target.disk }
    {
        match self.target.take() {
            Some(target) => {
                let (target, printed) = commit_target(number, target, out);
                self.target = Some(target);
                printed
            }
            None => unreachable!(),
        }
    }

    /// Stops the target.
    fn crash(&mut self, number: u8, out: &mut Bytes) -> Result<(), Memory>
        ensures does { OnOk result ((ls : List Line) × Obeys (calls_of D.cycled D.armed) self.old (Command.Crash number) self.new ls × (out.new ≡ out.old ++ texts ls)) }
        ensures touches { Touches self.old.target.disk self.new.target.disk }
    {
        match self.target.take() {
            Some(target) => {
                let (target, printed) = crash_target(number, target, out);
                self.target = Some(target);
                printed
            }
            None => unreachable!(),
        }
    }

    /// Starts the target again.
    fn restart(&mut self, number: u8, out: &mut Bytes) -> Result<(), Memory>
        ensures does { OnOk result ((ls : List Line) × Obeys (calls_of D.cycled D.armed) self.old (Command.Restart number) self.new ls × (out.new ≡ out.old ++ texts ls)) }
        ensures touches { Touches self.old.target.disk self.new.target.disk }
    {
        match self.target.take() {
            Some(target) => {
                let (target, printed) = restart_target(self.alloc, number, target, out);
                self.target = Some(target);
                printed
            }
            None => unreachable!(),
        }
    }

    /// Arms the target's disk.
    fn fuse(&mut self, after: u32, choice: u8)
        ensures same { self.new ≡ self.old }
        ensures armed { D.armed after choice self.old.target.disk }
    {
        match &mut self.target {
            Some(target) => target.arm(after, choice),
            None => unreachable!(),
        }
    }

    /// Does what the command asks for, and adds the lines that come of it.
    fn obey(&mut self, command: Command, out: &mut Bytes) -> Result<(), Memory>
        requires taken { IsCommand self.old.cluster command }
        requires played { IsPlayed command }
        requires comes { MayCome self.old.cluster self.old.ended (is_used self.old.used) command }
        ensures does { OnOk result ((ls : List Line) × Obeys (calls_of D.cycled D.armed) self.old command self.new ls × (out.new ≡ out.old ++ texts ls)) }
        ensures touches { Touches self.old.target.disk self.new.target.disk }
    {
        match command {
            Command::Cluster(cluster) => self.found(cluster, out),
            Command::Send(request) => self.send(request),
            Command::Settle => self.settle(out),
            Command::Tree => self.show(out),
            Command::End => self.end(out),
            Command::Commit(number) => self.commit(number, out),
            Command::Crash(number) => self.crash(number, out),
            Command::Restart(number) => self.restart(number, out),
            Command::Fuse { after, choice, .. } => {
                self.fuse(after, choice);
                Ok(())
            }
            Command::Again(_) => unreachable!(),
            Command::Deliver(_) => unreachable!(),
            Command::Drop(_) => unreachable!(),
            Command::Resend => unreachable!(),
            Command::List => unreachable!(),
            Command::Log(_) => unreachable!(),
        }
    }

    /// Runs a line, and adds what it prints. A refused line changes nothing; after want of memory the
    /// session can only give its disk back.
    fn run_line(&mut self, line: &[u8], out: &mut Bytes) -> Result<(), TextFault>
        ensures ok { OnOk result ((e : Entry) × (ls : List Line) × Stands self.old e × (line.now ≡ line_of e)
            × Does (calls_of D.cycled D.armed) self.old e self.new ls × (out.new ≡ out.old ++ texts ls)) }
        ensures refused { result ≡ Err TextFault.NotYet → IsBad self.old line.now }
        ensures same { result ≡ Err TextFault.NotYet → self.new ≡ self.old }
        ensures touches { Touches self.old.target.disk self.new.target.disk }
    {
        if is_skipped(line) {
            return self.skip();
        }
        let command = match Command::parse(self.alloc, line, self.cluster) {
            Ok(command) => command,
            Err(fault) => return Err(fault),
        };
        if !command.is_played() {
            return Err(TextFault::NotYet);
        }
        if !self.may_come(&command) {
            return Err(TextFault::NotYet);
        }
        match self.obey(command, out) {
            Ok(()) => Ok(()),
            Err(_) => Err(TextFault::Memory),
        }
    }

    /// Takes a line that is skipped: none may stand behind `end`.
    fn skip(&self) -> Result<(), TextFault>
        ensures ok { OnOk result (self.now.ended ≡ false) }
        ensures refused { IsErr result → self.now.ended ≡ true }
        ensures memory { result ≢ Err TextFault.Memory }
    {
        if self.ended {
            return Err(TextFault::NotYet);
        }
        Ok(())
    }
}

impl<D: Plant> LineRunner for Session<D> {
    ghost takes = { session_takes (calls_of D.cycled D.armed) };

    ghost refuses = { IsBad };

    ghost leaves = { session_leaves };

    ghost ended = { session_ended };

    fn take_line(&mut self, line: &[u8], out: &mut Bytes) -> Result<(), TextFault> {
        self.run_line(line, out)
    }

    fn has_ended(&self) -> bool {
        self.ended
    }
}

/// So many flags, none of them set.
fn flags(alloc: Global, len: usize) -> Result<Vec<bool>, Memory>
    ensures { IfOk result (λ v. v.items ≡ no_flags len) }
{
    vec![in alloc; false; len]
}

/// Adds a line for each request that came to a target that doesn't serve.
fn turn_away(requests: &[Request], out: &mut Bytes) -> Result<(), Memory>
    ensures { OnOk result (out.new ≡ out.old ++ texts (turned_away requests.now)) }
{
    for request in requests {
        print_recovering(request.number, 0, out)?;
    }
    Ok(())
}
