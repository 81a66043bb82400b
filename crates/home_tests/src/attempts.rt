ghost use Rattle.std.specs.Prelude.{◌<◌, IfOk};
ghost use Rattle.update_coordinator.specs.Fitting.{MayHear};

use crate::fixtures::first_fid;
use fid_space::{Bytes, Cluster, Fid, Targets, locate};
use object_store::{Body, ObjectKind};
use out_update::{UpdateReply, UpdateResult};
use std::alloc::Global;
use std::test::Fail;
use striped_dir::Layout;
use tree_model::{Op, Request};
use update_coordinator::{Action, Coordinator, Event};
use update_record::Facts;

/// What is heard: from a target its clock, whether a directory is there, and the number and the targets, as bits,
/// of the request that wrote last, none for 0.
#[derive(Clone, Copy)]
enum Say {
    Tells(u8, bool, u32, u8),
    /// From a target with this clock, these bytes.
    Bytes(u8, &'static [u8]),
    Busy(u32),
    Down(u8),
    Synced,
    Executed(u8),
    Released(u8),
}

/// The targets below 3 whose bits are set.
fn set_of(bits: u8) -> Targets {
    let mut set = Targets::none();
    if bits & 1 != 0 {
        set = set.with(0);
    }
    if bits & 2 != 0 {
        set = set.with(1);
    }
    if bits & 4 != 0 {
        set = set.with(2);
    }
    set
}

/// The answer to a look: a plain directory of the root, or that nothing is there.
fn result_of(alloc: Global, found: bool) -> Result<UpdateResult, Fail> {
    let mut body = Bytes::new(alloc);
    if !found {
        return Ok(UpdateResult { code: 2, body });
    }
    let seen = Body {
        kind: ObjectKind::Directory,
        mode: 0o755,
        uid: 0,
        gid: 0,
        links: 2,
        layout: Layout {
            count: 0,
            start: 0,
            generation: 0,
        },
        fid: Fid::ROOT,
        index: 0,
    };
    body.append(&seen.encode())?;
    body.append(&[0; 8])?;
    Ok(UpdateResult { code: 0, body })
}

/// What a target tells that has this load.
fn told(
    alloc: Global,
    load: u64,
    clock: u8,
    found: bool,
    writer: Option<(u32, Targets)>,
) -> Result<Event, Fail>
    ensures { IfOk result MayHear }
{
    let mut reply = UpdateReply::new(alloc);
    reply.push(result_of(alloc, found)?)?;
    Ok(Event::Fact(Facts {
        load,
        clock: u64::from(clock),
        writer,
        reply,
    }))
}

/// What a target tells that has this load: these bytes, which no request wrote last.
fn shown(alloc: Global, load: u64, clock: u8, found: &[u8]) -> Result<Event, Fail>
    ensures { IfOk result MayHear }
{
    let mut body = Bytes::new(alloc);
    body.append(found)?;
    let mut reply = UpdateReply::new(alloc);
    reply.push(UpdateResult { code: 0, body })?;
    Ok(Event::Fact(Facts {
        load,
        clock: u64::from(clock),
        writer: None,
        reply,
    }))
}

fn event_of(alloc: Global, say: Say, load: u64, attempt: u64) -> Result<Event, Fail>
    ensures { IfOk result MayHear }
{
    match say {
        Say::Tells(clock, found, number, on) => {
            let writer = if number == 0 {
                None
            } else {
                Some((number, set_of(on)))
            };
            told(alloc, load, clock, found, writer)
        }
        Say::Bytes(clock, found) => shown(alloc, load, clock, found),
        Say::Busy(number) => Ok(Event::Busy(number)),
        Say::Down(target) if target < 16 => Ok(Event::Down(target)),
        Say::Executed(target) if target < 16 => Ok(Event::Executed(target, attempt)),
        Say::Released(target) if target < 16 => Ok(Event::Released(target, attempt)),
        Say::Synced => Ok(Event::Synced),
        Say::Down(_) | Say::Executed(_) | Say::Released(_) => Err("a target".into()),
    }
}

/// An action as a word and two numbers: of an accept its stamp and its parts.
fn told_as(action: &Action) -> (&'static str, u64, u64) {
    match action {
        Action::Ask(need) => ("ask", u64::from(need.target), 0),
        Action::HoldOnly(target) => ("hold", u64::from(*target), 0),
        Action::Sync(target, writer) => ("sync", u64::from(*target), u64::from(*writer)),
        Action::Accept(entry) => ("accept", entry.stamp, entry.parts.len() as u64),
        Action::Answer(_) => ("answer", 0, 0),
        Action::Busy(number) => ("busy", u64::from(*number), 0),
        Action::Full(target, load, _) => ("full", u64::from(*target), *load),
        Action::Recovering(target) => ("recovering", u64::from(*target), 0),
        Action::Nothing => ("nothing", 0, 0),
    }
}

fn hear(home: &mut Coordinator, event: Event) -> Result<Action, Fail>
    requires { MayHear event }
{
    if home.ask() == u32::MAX {
        return Err("few questions".into());
    }
    Ok(home.on(event)?)
}

/// The first of three targets, with a request of a client, where its clock is 5, and what it does first.
fn begun(alloc: Global, text: &str, load: u64) -> Result<(Coordinator, Action), Fail> {
    let Some(cluster) = Cluster::new(3) else {
        return Err("a cluster".into());
    };
    let Ok(op) = Op::parse(alloc, text.as_bytes(), cluster) else {
        return Err("an operation".into());
    };
    let Ok(0) = locate(cluster, first_fid(&op)) else {
        return Err("a request for the first target".into());
    };
    let mut home = Coordinator::new(alloc, cluster, 0, 1);
    let request = Request {
        number: 7,
        client: 3,
        op,
    };
    let action = home.start(request, load, 5)?;
    Ok((home, action))
}

/// Whether a home that hears this acts so, first and after each.
fn acts(
    alloc: Global,
    text: &str,
    load: u64,
    says: &[(Say, (&'static str, u64, u64))],
) -> Result<bool, Fail> {
    let (mut home, first) = begun(alloc, text, load)?;
    if told_as(&first) != ("ask", 0, 0) {
        return Ok(false);
    }
    for (say, want) in says {
        let event = event_of(alloc, *say, load, home.attempt())?;
        if told_as(&hear(&mut home, event)?) != *want {
            return Ok(false);
        }
    }
    Ok(true)
}

const ONE: &str = "mkdir [0x200000007:0x1:0x0] d [0x200000400:0x1:0x0]";

const TWO: &str = "mkdir [0x200000007:0x1:0x0] d [0x200100400:0x1:0x0]";

const STRIPED: &str = "mkdir [0x200000007:0x1:0x0] d [0x200100400:0x1:0x0] 3 0";

/// The parent is there, the name and the node aren't: the second is asked of the target 1.
const PARENT: (Say, (&str, u64, u64)) = (Say::Tells(5, true, 0, 0), ("ask", 0, 0));

const NAME: (Say, (&str, u64, u64)) = (Say::Tells(5, false, 0, 0), ("ask", 1, 0));

#[test]
fn accepts_on_one_target_and_on_two(rt: HostRuntime) -> Result<(), Fail> {
    let alone = [
        PARENT,
        (Say::Tells(5, false, 0, 0), ("ask", 0, 0)),
        (Say::Tells(5, false, 0, 0), ("accept", 6, 1)),
        (Say::Synced, ("nothing", 0, 0)),
    ];
    assert!(rt; acts(rt.alloc(), ONE, 0, &alone)?);
    let both = [
        PARENT,
        NAME,
        (Say::Tells(9, false, 0, 0), ("accept", 10, 2)),
        (Say::Executed(1), ("nothing", 0, 0)),
    ];
    assert!(rt; acts(rt.alloc(), TWO, 0, &both)?);
    Ok(())
}

#[test]
fn holds_a_participant_that_was_asked_nothing(rt: HostRuntime) -> Result<(), Fail> {
    let says = [
        PARENT,
        NAME,
        (Say::Tells(9, false, 0, 0), ("hold", 2, 0)),
        (Say::Tells(8, false, 0, 0), ("accept", 10, 3)),
    ];
    assert!(rt; acts(rt.alloc(), STRIPED, 0, &says)?);
    Ok(())
}

/// The FID [0x200100400:0x1:0x0].
const CHILD: [u8; 16] = [0, 4, 16, 0, 2, 0, 0, 0, 1, 0, 0, 0, 0, 0, 0, 0];

/// A count of no entries.
const NONE: [u8; 4] = [0; 4];

#[test]
fn looks_twice_at_another_target(rt: HostRuntime) -> Result<(), Fail> {
    // The name stands for a directory of the target 1, which has no entry.
    let says = [
        PARENT,
        (Say::Bytes(5, &CHILD), ("ask", 1, 0)),
        (Say::Tells(9, true, 0, 0), ("ask", 1, 0)),
        (Say::Bytes(9, &NONE), ("accept", 10, 2)),
    ];
    assert!(rt; acts(rt.alloc(), "rmdir [0x200000007:0x1:0x0] d", 0, &says)?);
    Ok(())
}

#[test]
fn ends_where_it_has_to(rt: HostRuntime) -> Result<(), Fail> {
    let busy = [PARENT, NAME, (Say::Busy(4), ("busy", 4, 0))];
    assert!(rt; acts(rt.alloc(), TWO, 0, &busy)?);
    let down = [PARENT, NAME, (Say::Down(1), ("recovering", 1, 0))];
    assert!(rt; acts(rt.alloc(), TWO, 0, &down)?);
    let full = [
        PARENT,
        NAME,
        (Say::Tells(9, false, 0, 0), ("full", 0, 4_100_000)),
        (Say::Released(1), ("nothing", 0, 0)),
    ];
    assert!(rt; acts(rt.alloc(), TWO, 4_100_000, &full)?);
    Ok(())
}

#[test]
fn commits_before_it_accepts(rt: HostRuntime) -> Result<(), Fail> {
    let at_home = [
        PARENT,
        (Say::Tells(5, false, 6, 1), ("ask", 1, 0)),
        (Say::Tells(9, false, 0, 0), ("sync", 0, 6)),
        (Say::Synced, ("accept", 10, 2)),
    ];
    assert!(rt; acts(rt.alloc(), TWO, 0, &at_home)?);
    let elsewhere = [
        PARENT,
        NAME,
        (Say::Tells(9, false, 6, 2), ("sync", 1, 6)),
        (Say::Synced, ("accept", 10, 2)),
    ];
    assert!(rt; acts(rt.alloc(), TWO, 0, &elsewhere)?);
    // The node is there, so the operation is refused, on what another request wrote.
    let refused = [
        PARENT,
        NAME,
        (Say::Tells(9, true, 6, 2), ("sync", 1, 6)),
        (Say::Synced, ("accept", 10, 1)),
    ];
    assert!(rt; acts(rt.alloc(), TWO, 0, &refused)?);
    Ok(())
}

#[test]
fn answers_a_read_and_passes_over_what_is_not_awaited(rt: HostRuntime) -> Result<(), Fail> {
    let says = [
        (Say::Synced, ("nothing", 0, 0)),
        PARENT,
        (Say::Tells(5, false, 6, 1), ("answer", 0, 0)),
        (Say::Busy(2), ("nothing", 0, 0)),
    ];
    assert!(rt; acts(rt.alloc(), "lookup [0x200000007:0x1:0x0] d", 0, &says)?);
    Ok(())
}
