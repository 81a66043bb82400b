//! What commands have a cluster do.

ghost use Rattle.std.specs.Prelude.{◌≡◌, ◌+◌, ◌++◌, ◌∷◌, [], ℕ, true, List, length, Some, OnOk};
ghost use Rattle.std.specs.FinMap as map;
ghost use Rattle.tree_model.specs.Participants.{home_of};
ghost use Rattle.scenario_text.specs.Spelling.{IsCommand, IsRequest};
ghost use Rattle.scenario_text.specs.declared.line.Line.{Line};
ghost use Rattle.target_turns.specs.Disks.{calls_of};
ghost use Rattle.cluster_core.specs.Cored.{Keeps, tree_answer};
ghost use Rattle.cluster_core.specs.Commands.{sends, sends_again};
ghost use Rattle.cluster_player.specs.Requests.{AreBelow, was_sent};
ghost use Rattle.cluster_player.specs.Commanded.{IsOrder, Orders, tree_line};
ghost use Rattle.cluster_player.specs.Taken.{NamesSent};

use crate::requests::Requests;
use cluster_core::{Core, TreeAnswer};
use outside::Plant;
use scenario_text::{Command, Line, Lines};
use std::alloc::{AllocError as Memory, Global};
use tree_model::Request;

/// The line for a tree, or for what is in its way.
fn tree_line(answer: TreeAnswer) -> Line
    ensures { result ≡ tree_line answer }
{
    match answer {
        TreeAnswer::Tree(tree) => Line::Tree(tree),
        TreeAnswer::Busy(number) => Line::TreeBusy(number),
        TreeAnswer::NotServing(target) => Line::TreeState(target),
    }
}

/// Adds the line of a look at the tree.
fn show_tree<D: Plant>(alloc: Global, core: &Core<D>, lines: &mut Lines) -> Result<(), Memory>
    ensures { OnOk result (lines.new ≡ lines.old ++ tree_line (tree_answer core.now.cluster.targets) ∷ []) }
{
    let answer = core.tree(alloc)?;
    lines.push(tree_line(answer))
}

/// Sends a request, and notes by which message.
pub fn send<D: Plant>(
    requests: &mut Requests,
    core: &mut Core<D>,
    request: &Request,
) -> Result<(), Memory>
    requires fits { IsRequest (Some (length core.old.cluster.targets)) request.now }
    ensures sends { OnOk result ((home : ℕ) × (home_of (length core.old.cluster.targets) request.now.op ≡ Some home) × (core.new.cluster ≡ sends core.old.cluster home request.now)) }
    ensures notes { OnOk result (requests.new ≡ map.insert requests.old request.now.number (length core.old.cluster.sent + 1)) }
    ensures keeps { Keeps core.old core.new }
{
    core.send(request)?;
    requests.note(request.number, core.sent())
}

/// Sends the message of a request that was sent once more.
pub fn again<D: Plant>(requests: &Requests, core: &mut Core<D>, number: u32) -> Result<(), Memory>
    requires sent { was_sent requests.now number ≡ true }
    requires below { AreBelow (length core.old.cluster.sent) requests.now }
    ensures sends { OnOk result ((k : ℕ) × (map.get requests.now number ≡ Some k) × (core.new.cluster ≡ sends_again core.old.cluster k)) }
    ensures keeps { Keeps core.old core.new }
{
    match requests.message(number) {
        Some(k) => core.again(k),
        None => unreachable!(),
    }
}

/// Does what a command about messages or targets asks for, and adds the lines that come of it.
pub fn order<D: Plant>(
    alloc: Global,
    core: &mut Core<D>,
    command: &Command,
    lines: &mut Lines,
) -> Result<(), Memory>
    requires order { IsOrder command.now }
    requires fits { IsCommand (Some (length core.old.cluster.targets)) command.now }
    requires names { NamesSent core.old.cluster.sent command.now }
    ensures does { OnOk result ((ls : List Line) × Orders (calls_of D.cycled D.armed) core.old.cluster command.now core.new.cluster ls × (lines.new ≡ lines.old ++ ls)) }
    ensures keeps { Keeps core.old core.new }
{
    match command {
        Command::Deliver(k) => core.deliver(*k, lines),
        Command::Drop(k) => core.drop_message(*k),
        Command::Settle => core.settle(lines),
        Command::Resend => core.resend(),
        Command::List => core.list(lines),
        Command::Log(target) => core.log(*target, lines),
        Command::Tree => show_tree(alloc, core, lines),
        Command::End => core.finish(lines),
        Command::Commit(target) => core.commit(*target, lines),
        Command::Crash(target) => core.crash(*target, lines),
        Command::Restart(target) => core.restart(*target, lines),
        Command::Fuse {
            target,
            after,
            choice,
        } => core.fuse(*target, *after, *choice),
        Command::Cluster(_) => unreachable!(),
        Command::Send(_) => unreachable!(),
        Command::Again(_) => unreachable!(),
    }
}
