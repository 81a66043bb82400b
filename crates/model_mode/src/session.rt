ghost use Rattle.std.specs.Prelude.{◌≡◌, ◌≢◌, ◌++◌, [], ◌↔◌, ◌≤◌, true, false, IsTrue, IfOk, OnOk, IsErr, Err};
ghost use Rattle.scenario_text.specs.Spelling.{Entry, IsCommand, line_of};
ghost use Rattle.scenario_text.specs.Machine.{MayCome};
ghost use Rattle.scenario_text.specs.declared.command.Command.{Command};
ghost use Rattle.model_mode.specs.Plain.{reply_said, said_after, said_by, tree_said};
ghost use Rattle.model_mode.specs.Kept.{cluster_of, is_used, kept_after, kept_by, no_flags, nothing_kept};
ghost use Rattle.model_mode.specs.Reached.{IsBad, Stands, Takes, session_ended, session_leaves};

use fid_space::{Bytes, Cluster};
use line_player::LineRunner;
use scenario_text::{Command, TextFault, is_skipped, print_reply};
use std::alloc::{AllocError as Memory, Global};
use std::marker::Model;
use tree_model::{PlainTree, Request};

/// How many flags there are for the numbers of requests, 0 to 65,536.
const FLAGS: usize = 65_537;

/// A scenario while it is run on the plain tree: the tree, where the cluster was made, and the numbers
/// that requests had.
#[derive(Drop)]
pub struct Session {
    alloc: Global,
    tree: Option<PlainTree>,
    ended: bool,
    used: Vec<bool>,
}

impl Model for Session {
    ghost use Rattle.std.specs.Prelude.{◌≡◌, length};
    ghost use Rattle.model_mode.specs.Kept.{Kept, coded_kept};

    ghost Value = { Kept };

    ghost coded = { coded_kept };

    ghost view = { λ s. record { tree = s.tree; ended = s.ended; used = s.used.items } };

    ghost invariant = { λ s. length s.used.items ≡ 65537 };
}

impl Session {
    /// A session that has read no line.
    pub fn new(alloc: Global) -> Result<Session, Memory>
        ensures { IfOk result (λ s. s ≡ nothing_kept) }
    {
        let used = flags(alloc, FLAGS)?;
        Ok(Session {
            alloc,
            tree: None,
            ended: false,
            used,
        })
    }

    /// The cluster that was made.
    fn cluster(&self) -> Option<Cluster>
        ensures { result ≡ cluster_of self.now.tree }
    {
        match &self.tree {
            Some(tree) => Some(tree.cluster()),
            None => None,
        }
    }

    /// Whether a request had the number.
    fn is_used(&self, number: u32) -> bool
        ensures { result ≡ is_used self.now.used number }
    {
        match self.used.get(number as usize) {
            Some(used) => *used,
            None => false,
        }
    }

    /// Whether the command may come now.
    fn may_come(&self, command: &Command) -> bool
        ensures { IsTrue result ↔ MayCome (cluster_of self.now.tree) self.now.ended (is_used self.now.used) command.now }
    {
        let made = self.cluster().is_some();
        let open = made && !self.ended;
        match command {
            Command::Cluster(_) => !made,
            Command::Send(request) => open && !self.is_used(request.number),
            Command::Again(number) => open && self.is_used(*number),
            Command::Deliver(_) => open,
            Command::Drop(_) => open,
            Command::Settle => open,
            Command::Resend => open,
            Command::List => open,
            Command::Log(_) => open,
            Command::Tree => open,
            Command::End => open,
            Command::Commit(_) => open,
            Command::Crash(_) => open,
            Command::Restart(_) => open,
            Command::Fuse { .. } => open,
        }
    }

    /// Makes the tree of a new cluster.
    fn found(&mut self, cluster: Cluster) -> Result<(), Memory>
        ensures { OnOk result (self.new ≡ kept_by self.old (Command.Cluster cluster)) }
    {
        let tree = PlainTree::new(self.alloc, cluster)?;
        self.tree = Some(tree);
        Ok(())
    }

    /// Makes a request's step, and adds its reply.
    fn answer(&mut self, request: &Request, out: &mut Bytes) -> Result<(), Memory>
        ensures tree { OnOk result (self.new ≡ record self.old { tree = Rattle.model_mode.specs.Plain.tree_by self.old.tree (Command.Send request.now) }) }
        ensures said { OnOk result (out.new ≡ out.old ++ reply_said self.old.tree request.now) }
    {
        match &mut self.tree {
            Some(tree) => {
                let reply = tree.apply(&request.op)?;
                print_reply(request.number, &reply, out)
            }
            None => Ok(()),
        }
    }

    /// Takes a request and answers it.
    fn send(&mut self, request: Request, out: &mut Bytes) -> Result<(), Memory>
        requires number { request.number ≤ 65536 }
        ensures kept { OnOk result (self.new ≡ kept_by self.old (Command.Send request)) }
        ensures said { OnOk result (out.new ≡ out.old ++ reply_said self.old.tree request) }
    {
        self.answer(&request, out)?;
        self.used[request.number as usize] = true;
        Ok(())
    }

    /// Adds the tree's text.
    fn show(&self, out: &mut Bytes) -> Result<(), Memory>
        ensures { OnOk result (out.new ≡ out.old ++ tree_said self.now.tree) }
    {
        match &self.tree {
            Some(tree) => tree.print(out),
            None => Ok(()),
        }
    }

    /// Ends the scenario.
    fn end(&mut self, out: &mut Bytes) -> Result<(), Memory>
        ensures kept { OnOk result (self.new ≡ kept_by self.old Command.End) }
        ensures said { OnOk result (out.new ≡ out.old ++ said_by self.old.tree Command.End) }
    {
        self.ended = true;
        out.append(b"end\n")
    }

    /// Does what the command asks for, and adds what comes of it. A command that speaks of deliveries and
    /// targets does nothing.
    fn obey(&mut self, command: Command, out: &mut Bytes) -> Result<(), Memory>
        requires taken { IsCommand (cluster_of self.old.tree) command }
        ensures kept { OnOk result (self.new ≡ kept_by self.old command) }
        ensures said { OnOk result (out.new ≡ out.old ++ said_by self.old.tree command) }
    {
        match command {
            Command::Cluster(cluster) => self.found(cluster),
            Command::Send(request) => self.send(request, out),
            Command::Again(_) => Ok(()),
            Command::Deliver(_) => Ok(()),
            Command::Drop(_) => Ok(()),
            Command::Settle => Ok(()),
            Command::Resend => Ok(()),
            Command::List => Ok(()),
            Command::Log(_) => Ok(()),
            Command::Tree => self.show(out),
            Command::End => self.end(out),
            Command::Commit(_) => Ok(()),
            Command::Crash(_) => Ok(()),
            Command::Restart(_) => Ok(()),
            Command::Fuse { .. } => Ok(()),
        }
    }

    /// Runs a line, and adds what it writes. A refused line changes nothing; after want of memory the
    /// session is given up.
    fn run_line(&mut self, line: &[u8], out: &mut Bytes) -> Result<(), TextFault>
        ensures ok { OnOk result ((e : Entry) × Stands self.old e × (line.now ≡ line_of e)
            × (self.new ≡ kept_after self.old e) × (out.new ≡ out.old ++ said_after self.old.tree e)) }
        ensures refused { result ≡ Err TextFault.NotYet → IsBad self.old line.now }
        ensures same { result ≡ Err TextFault.NotYet → self.new ≡ self.old }
    {
        if is_skipped(line) {
            return self.skip();
        }
        let command = match Command::parse(self.alloc, line, self.cluster()) {
            Ok(command) => command,
            Err(fault) => return Err(fault),
        };
        if !self.may_come(&command) {
            return Err(TextFault::NotYet);
        }
        match self.obey(command, out) {
            Ok(()) => Ok(()),
            Err(_) => Err(TextFault::Memory),
        }
    }

    /// Takes a line that is skipped: none may stand behind `end`.
    fn skip(&self) -> Result<(), TextFault>
        ensures ok { OnOk result (self.now.ended ≡ false) }
        ensures refused { IsErr result → self.now.ended ≡ true }
        ensures memory { result ≢ Err TextFault.Memory }
    {
        if self.ended {
            return Err(TextFault::NotYet);
        }
        Ok(())
    }
}

impl LineRunner for Session {
    ghost takes = { Takes };

    ghost refuses = { IsBad };

    ghost leaves = { session_leaves };

    ghost ended = { session_ended };

    fn take_line(&mut self, line: &[u8], out: &mut Bytes) -> Result<(), TextFault> {
        self.run_line(line, out)
    }

    fn has_ended(&self) -> bool {
        self.ended
    }
}

/// So many flags, none of them set.
fn flags(alloc: Global, len: usize) -> Result<Vec<bool>, Memory>
    ensures { IfOk result (λ v. v.items ≡ no_flags len) }
{
    vec![in alloc; false; len]
}
