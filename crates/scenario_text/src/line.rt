ghost use Rattle.std.specs.Prelude.{◌≡◌, ◌++◌, codes, OnOk, OnErr};
ghost use Rattle.tree_model.specs.TreeText.{tree_text};
ghost use Rattle.scenario_text.specs.LineText.{accept_text, full_text, reply_line_text, line_text, one_text, shared_text, two_text, stable_text, up_text, standing_word, state_text};

use crate::list::{print_numbers, print_targets};
use crate::logged::{Logged, print_logged};
use crate::message::{Kind, Sender, print_message};
use fid_space::{Bytes, Numbers, Targets, print_number};
use std::alloc::AllocError as Memory;
use tree_model::{PlainTree, Reply};

/// What a target does at a place of a scenario.
#[derive(Clone, Copy, Debug, PartialEq, Eq)]
pub enum Standing {
    /// It takes requests.
    Serving,
    /// It was restarted, and has only read its disk.
    Opened,
    /// It has stopped.
    Down,
}

/// A line of a transcript. A tree is one value, and its text has several lines.
#[derive(Drop)]
pub enum Line {
    /// A request was accepted, with its reply, on these targets.
    Accept {
        number: u32,
        reply: Reply,
        on: Targets,
    },
    /// A request was answered.
    Reply {
        number: u32,
        reply: Reply,
    },
    /// A target that a request is on, but for its home, executed its part.
    Done {
        number: u32,
        target: u8,
    },
    /// A request was turned away, since a target that it needs is held by this one.
    Busy {
        number: u32,
        holder: u32,
    },
    /// A request was turned away, since a target with this load has no room for so many bytes more.
    Full {
        number: u32,
        target: u8,
        load: u64,
        need: u64,
    },
    /// A target commits what one request wrote before another goes on.
    Shared {
        target: u8,
        number: u32,
        writer: u32,
    },
    /// The message with this number was ignored.
    Ignored(u32),
    /// A `settle` delivered 100,000 messages, and more wait.
    Unsettled,
    /// A request came after a later one of its client, whose number is the last.
    Stale {
        number: u32,
        last: u32,
    },
    /// A request came to a target that doesn't serve.
    Recovering {
        number: u32,
        target: u8,
    },
    /// A target committed; these requests are stable there since then.
    Stable {
        target: u8,
        numbers: Numbers,
    },
    /// A target stopped.
    Down(u8),
    /// A target was restarted: the transaction number on its disk, and the requests that it holds.
    Up {
        target: u8,
        transno: u64,
        numbers: Numbers,
    },
    /// The table that the disk's gate names isn't readable: with 1 the journal table, with 0 the home table.
    DamagedGates {
        target: u8,
        gates: u8,
    },
    /// The image on the disk can't be read from this byte of it on.
    DamagedImage {
        target: u8,
        place: u64,
    },
    /// A command needs another standing of the target than this one.
    State {
        target: u8,
        standing: Standing,
    },
    /// The tree, where it was asked for.
    Tree(PlainTree),
    /// The tree can't be shown, since this target doesn't serve.
    TreeState(u8),
    /// The tree can't be shown, since this request is in flight.
    TreeBusy(u32),
    /// A target's update log has so many live records, whose lines come next.
    Log {
        target: u8,
        live: u32,
    },
    /// A live record of an update log.
    LogEntry(Logged),
    /// A message that waits to be delivered; its request's number is 0 where it has none.
    Message {
        number: u32,
        kind: Kind,
        request: u32,
        from: Sender,
        to: u8,
    },
    /// The scenario came to its end, and each target committed.
    EndClean,
    /// The scenario came to its end while this target didn't serve.
    EndUnclean(u8),
    /// The scenario came to its end while this request was in flight.
    EndUncleanRequest(u32),
}

impl Line {
    /// Adds the text with its line feed. Want of memory adds nothing.
    pub fn print(&self, out: &mut Bytes) -> Result<(), Memory>
        ensures ok { OnOk result (out.new ≡ out.old ++ line_text self.now) }
        ensures err { OnErr result (out.new ≡ out.old) }
    {
        match self {
            Line::Accept { number, reply, on } => print_accept(*number, reply, *on, out),
            Line::Reply { number, reply } => print_reply(*number, reply, out),
            Line::Done { number, target } => print_done(*number, *target, out),
            Line::Busy { number, holder } => print_busy(*number, *holder, out),
            Line::Full {
                number,
                target,
                load,
                need,
            } => print_full(*number, *target, *load, *need, out),
            Line::Shared {
                target,
                number,
                writer,
            } => print_shared(*target, *number, *writer, out),
            Line::Ignored(message) => print_ignored(*message, out),
            Line::Unsettled => out.append(b"unsettled\n"),
            Line::Stale { number, last } => print_stale(*number, *last, out),
            Line::Recovering { number, target } => print_recovering(*number, *target, out),
            Line::Stable { target, numbers } => print_stable(*target, numbers, out),
            Line::Down(target) => print_down(*target, out),
            Line::Up {
                target,
                transno,
                numbers,
            } => print_up(*target, *transno, numbers, out),
            Line::DamagedGates { target, gates } => print_damaged_gates(*target, *gates, out),
            Line::DamagedImage { target, place } => print_damaged_image(*target, *place, out),
            Line::State { target, standing } => print_state(*target, *standing, out),
            Line::Tree(tree) => print_tree(tree, out),
            Line::TreeState(target) => print_tree_state(*target, out),
            Line::TreeBusy(number) => print_tree_busy(*number, out),
            Line::Log { target, live } => print_log(*target, *live, out),
            Line::LogEntry(entry) => print_logged(entry, out),
            Line::Message {
                number,
                kind,
                request,
                from,
                to,
            } => print_message(*number, *kind, *request, *from, *to, out),
            Line::EndClean => out.append(b"end clean\n"),
            Line::EndUnclean(target) => print_end_unclean(*target, out),
            Line::EndUncleanRequest(number) => print_end_unclean_request(*number, out),
        }
    }
}

/// Adds the text of an `accept` line.
pub fn print_accept(number: u32, reply: &Reply, on: Targets, out: &mut Bytes) -> Result<(), Memory>
    ensures ok { OnOk result (out.new ≡ out.old ++ accept_text number reply.now on) }
    ensures err { OnErr result (out.new ≡ out.old) }
{
    let mut line = Bytes::new(out.alloc());
    line.append(b"accept ")?;
    print_number(u64::from(number), &mut line)?;
    line.push(b' ')?;
    reply.print(&mut line)?;
    line.append(b" on ")?;
    print_targets(on, &mut line)?;
    line.push(b'\n')?;
    out.append(line.bytes())
}

/// Adds the text of a `reply` line.
pub fn print_reply(number: u32, reply: &Reply, out: &mut Bytes) -> Result<(), Memory>
    ensures ok { OnOk result (out.new ≡ out.old ++ reply_line_text number reply.now) }
    ensures err { OnErr result (out.new ≡ out.old) }
{
    let mut line = Bytes::new(out.alloc());
    line.append(b"reply ")?;
    print_number(u64::from(number), &mut line)?;
    line.push(b' ')?;
    reply.print(&mut line)?;
    line.push(b'\n')?;
    out.append(line.bytes())
}

/// Adds the text of a `done` line.
pub fn print_done(number: u32, target: u8, out: &mut Bytes) -> Result<(), Memory>
    ensures ok { OnOk result (out.new ≡ out.old ++ two_text (codes "done ") number (codes " at ") target) }
    ensures err { OnErr result (out.new ≡ out.old) }
{
    print_two("done ", u64::from(number), " at ", u64::from(target), out)
}

/// Adds the text of a `busy` line.
pub fn print_busy(number: u32, holder: u32, out: &mut Bytes) -> Result<(), Memory>
    ensures ok { OnOk result (out.new ≡ out.old ++ two_text (codes "busy ") number (codes " holder ") holder) }
    ensures err { OnErr result (out.new ≡ out.old) }
{
    print_two(
        "busy ",
        u64::from(number),
        " holder ",
        u64::from(holder),
        out,
    )
}

/// Adds the text of a `full` line.
pub fn print_full(
    number: u32,
    target: u8,
    load: u64,
    need: u64,
    out: &mut Bytes,
) -> Result<(), Memory>
    ensures ok { OnOk result (out.new ≡ out.old ++ full_text number target load need) }
    ensures err { OnErr result (out.new ≡ out.old) }
{
    let line = format!(in out.alloc(); "full {number} target {target} load {load} need {need}\n")?;
    out.append(line.as_bytes())
}

/// Adds the text of a `shared` line.
pub fn print_shared(target: u8, number: u32, writer: u32, out: &mut Bytes) -> Result<(), Memory>
    ensures ok { OnOk result (out.new ≡ out.old ++ shared_text target number writer) }
    ensures err { OnErr result (out.new ≡ out.old) }
{
    let line = format!(in out.alloc(); "shared {target} {number} {writer}\n")?;
    out.append(line.as_bytes())
}

/// Adds the text of an `ignored` line.
pub fn print_ignored(message: u32, out: &mut Bytes) -> Result<(), Memory>
    ensures ok { OnOk result (out.new ≡ out.old ++ one_text (codes "ignored ") message) }
    ensures err { OnErr result (out.new ≡ out.old) }
{
    print_one("ignored ", u64::from(message), out)
}

/// Adds the text of a `stale` line.
pub fn print_stale(number: u32, last: u32, out: &mut Bytes) -> Result<(), Memory>
    ensures ok { OnOk result (out.new ≡ out.old ++ two_text (codes "stale ") number (codes " last ") last) }
    ensures err { OnErr result (out.new ≡ out.old) }
{
    print_two("stale ", u64::from(number), " last ", u64::from(last), out)
}

/// Adds the text of a `recovering` line.
pub fn print_recovering(number: u32, target: u8, out: &mut Bytes) -> Result<(), Memory>
    ensures ok { OnOk result (out.new ≡ out.old ++ two_text (codes "recovering ") number (codes " target ") target) }
    ensures err { OnErr result (out.new ≡ out.old) }
{
    print_two(
        "recovering ",
        u64::from(number),
        " target ",
        u64::from(target),
        out,
    )
}

/// Adds the text of a `stable` line.
pub fn print_stable(target: u8, numbers: &Numbers, out: &mut Bytes) -> Result<(), Memory>
    ensures ok { OnOk result (out.new ≡ out.old ++ stable_text target numbers.now) }
    ensures err { OnErr result (out.new ≡ out.old) }
{
    let mut line = Bytes::new(out.alloc());
    line.append(b"stable ")?;
    print_number(u64::from(target), &mut line)?;
    line.push(b' ')?;
    print_numbers(numbers, &mut line)?;
    line.push(b'\n')?;
    out.append(line.bytes())
}

/// Adds the text of a `down` line.
pub fn print_down(target: u8, out: &mut Bytes) -> Result<(), Memory>
    ensures ok { OnOk result (out.new ≡ out.old ++ one_text (codes "down ") target) }
    ensures err { OnErr result (out.new ≡ out.old) }
{
    print_one("down ", u64::from(target), out)
}

/// Adds the text of an `up` line.
pub fn print_up(target: u8, transno: u64, numbers: &Numbers, out: &mut Bytes) -> Result<(), Memory>
    ensures ok { OnOk result (out.new ≡ out.old ++ up_text target transno numbers.now) }
    ensures err { OnErr result (out.new ≡ out.old) }
{
    let mut line = Bytes::new(out.alloc());
    line.append(b"up ")?;
    print_number(u64::from(target), &mut line)?;
    line.append(b" transno ")?;
    print_number(transno, &mut line)?;
    line.append(b" holds ")?;
    print_numbers(numbers, &mut line)?;
    line.push(b'\n')?;
    out.append(line.bytes())
}

/// Adds the text of a `damaged` line that tells the gates.
pub fn print_damaged_gates(target: u8, gates: u8, out: &mut Bytes) -> Result<(), Memory>
    ensures ok { OnOk result (out.new ≡ out.old ++ two_text (codes "damaged ") target (codes " gates ") gates) }
    ensures err { OnErr result (out.new ≡ out.old) }
{
    print_two(
        "damaged ",
        u64::from(target),
        " gates ",
        u64::from(gates),
        out,
    )
}

/// Adds the text of a `damaged` line that tells a place of the image.
pub fn print_damaged_image(target: u8, place: u64, out: &mut Bytes) -> Result<(), Memory>
    ensures ok { OnOk result (out.new ≡ out.old ++ two_text (codes "damaged ") target (codes " image ") place) }
    ensures err { OnErr result (out.new ≡ out.old) }
{
    print_two("damaged ", u64::from(target), " image ", place, out)
}

/// Adds the text of a `state` line.
pub fn print_state(target: u8, standing: Standing, out: &mut Bytes) -> Result<(), Memory>
    ensures ok { OnOk result (out.new ≡ out.old ++ state_text target standing) }
    ensures err { OnErr result (out.new ≡ out.old) }
{
    let word = word_of(standing);
    let line = format!(in out.alloc(); "state {target} {word}\n")?;
    out.append(line.as_bytes())
}

/// Adds the text of a `tree state` line.
pub fn print_tree_state(target: u8, out: &mut Bytes) -> Result<(), Memory>
    ensures ok { OnOk result (out.new ≡ out.old ++ one_text (codes "tree state ") target) }
    ensures err { OnErr result (out.new ≡ out.old) }
{
    print_one("tree state ", u64::from(target), out)
}

/// Adds the text of a `tree busy` line.
pub fn print_tree_busy(number: u32, out: &mut Bytes) -> Result<(), Memory>
    ensures ok { OnOk result (out.new ≡ out.old ++ one_text (codes "tree busy ") number) }
    ensures err { OnErr result (out.new ≡ out.old) }
{
    print_one("tree busy ", u64::from(number), out)
}

/// Adds the text of a `log` line.
pub fn print_log(target: u8, live: u32, out: &mut Bytes) -> Result<(), Memory>
    ensures ok { OnOk result (out.new ≡ out.old ++ two_text (codes "log ") target (codes " live ") live) }
    ensures err { OnErr result (out.new ≡ out.old) }
{
    print_two("log ", u64::from(target), " live ", u64::from(live), out)
}

/// Adds the text of an `end unclean request` line.
pub fn print_end_unclean_request(number: u32, out: &mut Bytes) -> Result<(), Memory>
    ensures ok { OnOk result (out.new ≡ out.old ++ one_text (codes "end unclean request ") number) }
    ensures err { OnErr result (out.new ≡ out.old) }
{
    print_one("end unclean request ", u64::from(number), out)
}

/// Adds the text of an `end unclean target` line.
pub fn print_end_unclean(target: u8, out: &mut Bytes) -> Result<(), Memory>
    ensures ok { OnOk result (out.new ≡ out.old ++ one_text (codes "end unclean target ") target) }
    ensures err { OnErr result (out.new ≡ out.old) }
{
    print_one("end unclean target ", u64::from(target), out)
}

fn word_of(standing: Standing) -> &'static str
    ensures { result.now ≡ standing_word standing }
{
    match standing {
        Standing::Serving => "serving",
        Standing::Opened => "opened",
        Standing::Down => "down",
    }
}

/// Adds a tree's text. Want of memory adds nothing.
fn print_tree(tree: &PlainTree, out: &mut Bytes) -> Result<(), Memory>
    ensures ok { OnOk result (out.new ≡ out.old ++ tree_text tree.now.tree) }
    ensures err { OnErr result (out.new ≡ out.old) }
{
    let before = out.len();
    match tree.print(out) {
        Ok(()) => Ok(()),
        Err(memory) => {
            out.truncate(before);
            Err(memory)
        }
    }
}

/// Adds a word and a number.
fn print_one(word: &str, number: u64, out: &mut Bytes) -> Result<(), Memory>
    ensures ok { OnOk result (out.new ≡ out.old ++ one_text word.now number) }
    ensures err { OnErr result (out.new ≡ out.old) }
{
    let line = format!(in out.alloc(); "{word}{number}\n")?;
    out.append(line.as_bytes())
}

/// Adds a word, a number, another word and another number.
fn print_two(word: &str, number: u64, other: &str, last: u64, out: &mut Bytes) -> Result<(), Memory>
    ensures ok { OnOk result (out.new ≡ out.old ++ two_text word.now number other.now last) }
    ensures err { OnErr result (out.new ≡ out.old) }
{
    let line = format!(in out.alloc(); "{word}{number}{other}{last}\n")?;
    out.append(line.as_bytes())
}
