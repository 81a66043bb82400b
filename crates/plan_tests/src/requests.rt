ghost use Rattle.std.specs.Prelude.{All};
ghost use Rattle.out_update.specs.Spelling.{FitsUpdate};
ghost use Rattle.plan_base.specs.Planners.{FitsNeed};
ghost use Rattle.plan_tests.specs.Playing.{MayPlay, AreSpelled};

use crate::any_planner::AnyPlanner;
use fid_space::{Bytes, Cluster};
use object_store::Objects;
use out_update::{Parts, UpdateRequest, UpdateResult};
use std::alloc::Global;
use std::test::Fail;
use striped_dir::{Need, Step};
use tree_model::{Op, PlainTree, Reply};

/// The result of a question, from the objects of its target.
fn answer(alloc: Global, world: &[Objects], need: &Need) -> Result<UpdateResult, Fail>
    requires { FitsNeed need.now }
{
    let objects = world.get(usize::from(need.target)).ok_or("a target")?;
    Ok(objects.read(alloc, &need.ask)?)
}

/// Does the updates of a part to the objects of its target.
fn apply_part(world: &mut [Objects], target: u8, updates: &UpdateRequest) -> Result<(), Fail>
    requires { All FitsUpdate updates.now }
{
    let objects = world.get_mut(usize::from(target)).ok_or("a target")?;
    objects.apply(updates)?;
    Ok(())
}

fn apply_parts(world: &mut [Objects], parts: &Parts) -> Result<(), Fail>
    requires { AreSpelled parts.now }
{
    for part in parts.items() {
        apply_part(world, part.0, &part.1)?;
    }
    Ok(())
}

/// Plays on over the objects of the targets, after an answer: the reply, and how many of the questions that it
/// may still ask were left.
fn play_on(
    alloc: Global,
    world: &mut [Objects],
    planner: &mut AnyPlanner,
    told: Option<&UpdateResult>,
    left: u8,
) -> Result<(Reply, u8), Fail>
    requires { MayPlay planner.old }
{
    match planner.step(told)? {
        Step::Decided(decision) => {
            apply_parts(world, &decision.parts)?;
            Ok((decision.reply, left))
        }
        Step::Need(need) => {
            let fact = answer(alloc, world, &need)?;
            if left == 0 || !planner.fits(&fact) {
                return Err("few questions, and answers that fit".into());
            }
            play_on(alloc, world, planner, Some(&fact), left - 1)
        }
    }
}

fn spelled(alloc: Global, reply: &Reply) -> Result<Bytes, Fail> {
    let mut text = Bytes::new(alloc);
    reply.print(&mut text)?;
    Ok(text)
}

/// Plays a request over the objects of the targets and over the tree: whether the replies agree, and so many
/// questions were asked.
fn agrees(
    alloc: Global,
    world: &mut [Objects],
    tree: &mut PlainTree,
    text: &str,
    questions: u8,
) -> Result<bool, Fail> {
    let cluster = tree.cluster();
    let op = Op::parse(alloc, text.as_bytes(), cluster).map_err(|_| "an operation")?;
    let mut planner = AnyPlanner::start(alloc, cluster, &op)?;
    let (reply, left) = play_on(alloc, world, &mut planner, None, questions)?;
    let replied = spelled(alloc, &reply)?;
    let wanted = spelled(alloc, &tree.apply(&op)?)?;
    Ok(left == 0 && replied.bytes() == wanted.bytes())
}

fn first_objects(alloc: Global, cluster: Cluster) -> Result<Vec<Objects>, Fail> {
    let mut world = Vec::new(alloc);
    for target in 0..3_u8 {
        world.push(Objects::new(alloc, cluster, target)?)?;
    }
    Ok(world)
}

/// Requests, each with the count of its questions. The first thirteen are one of each operation.
const REQUESTS: &[(&str, u8)] = &[
    // The parent, the entry and the node.
    ("mkdir [0x200000007:0x1:0x0] s [0x200000400:0x1:0x0] 3 1", 3),
    ("create [0x200000400:0x1:0x0] a [0x200100400:0x1:0x0]", 3),
    ("link [0x200000007:0x1:0x0] l [0x200100400:0x1:0x0]", 3),
    ("setattr [0x200100400:0x1:0x0] 384 7 8", 1),
    // The node and the value.
    ("setxattr [0x200100400:0x1:0x0] u 0102", 2),
    ("getattr [0x200100400:0x1:0x0]", 1),
    ("getxattr [0x200100400:0x1:0x0] u", 2),
    ("delxattr [0x200100400:0x1:0x0] u", 2),
    ("lookup [0x200000400:0x1:0x0] a", 2),
    ("unlink [0x200000007:0x1:0x0] l", 3),
    // The directory and the names of its three parts.
    ("migrate [0x200000400:0x1:0x0] 2 0", 4),
    // Both directories, both entries and the file.
    ("rename [0x200000400:0x1:0x0] a [0x200000007:0x1:0x0] b", 5),
    // The parent, the entry, the child and the counts of its two parts.
    ("rmdir [0x200000007:0x1:0x0] s", 5),
    // A striped directory s has d, which has a striped directory e with a file.
    ("mkdir [0x200000007:0x1:0x0] s [0x200000400:0x2:0x0] 3 2", 3),
    ("mkdir [0x200000400:0x2:0x0] d [0x200100400:0x2:0x0]", 3),
    ("mkdir [0x200100400:0x2:0x0] e [0x200200400:0x2:0x0] 2 2", 3),
    ("create [0x200200400:0x2:0x0] f [0x200000400:0x3:0x0]", 3),
    // e comes up to the root, and s goes into it: the walk asks for no member again.
    ("rename [0x200100400:0x2:0x0] e [0x200000007:0x1:0x0] e", 5),
    ("rename [0x200000007:0x1:0x0] s [0x200200400:0x2:0x0] x", 5),
    // e doesn't go into d: the walk asks for s, and comes to e.
    ("rename [0x200000007:0x1:0x0] e [0x200100400:0x2:0x0] y", 5),
    // A file replaces another one.
    ("rename [0x200200400:0x2:0x0] f [0x200100400:0x2:0x0] f", 5),
    ("create [0x200000007:0x1:0x0] g [0x200200400:0x4:0x0]", 3),
    ("rename [0x200000007:0x1:0x0] g [0x200100400:0x2:0x0] f", 6),
    // A directory doesn't replace one with an entry, nor a file; it replaces an empty one.
    ("mkdir [0x200000007:0x1:0x0] h [0x200100400:0x5:0x0] 2 1", 3),
    ("rename [0x200000007:0x1:0x0] h [0x200200400:0x2:0x0] x", 9),
    ("rename [0x200000007:0x1:0x0] h [0x200000007:0x1:0x0] b", 5),
    ("rmdir [0x200000400:0x2:0x0] d", 4),
    ("unlink [0x200100400:0x2:0x0] f", 3),
    ("rename [0x200000007:0x1:0x0] h [0x200000400:0x2:0x0] d", 8),
    ("lookup [0x200000400:0x2:0x0] d", 2),
    // From two parts to none, and to three again.
    ("migrate [0x200200400:0x2:0x0] 0 0", 3),
    ("lookup [0x200200400:0x2:0x0] x", 2),
    ("migrate [0x200200400:0x2:0x0] 3 1", 2),
    ("lookup [0x200200400:0x2:0x0] x", 2),
    // Within one directory, and to the same name.
    ("rename [0x200200400:0x2:0x0] x [0x200200400:0x2:0x0] z", 4),
    ("rename [0x200200400:0x2:0x0] z [0x200200400:0x2:0x0] z", 2),
    // Refusals.
    ("mkdir [0x200000007:0x1:0x0] w [0x200000400:0x9:0x0] 4 0", 0),
    ("create [0x200100400:0x1:0x0] w [0x200000400:0x9:0x0]", 1),
    ("create [0x200000007:0x1:0x0] b [0x200000400:0x9:0x0]", 2),
    ("link [0x200200400:0x2:0x0] k [0x200100400:0x5:0x0]", 3),
    ("unlink [0x200200400:0x2:0x0] z", 3),
    ("setxattr [0x200000400:0x9:0x0] u 01", 1),
    ("delxattr [0x200100400:0x1:0x0] u", 2),
    ("migrate [0x200000007:0x1:0x0] 2 0", 1),
];

/// The replies over the objects of three targets are the plain tree's, and no question more is asked than the
/// checks need.
#[test]
fn replies_are_the_trees(rt: HostRuntime) -> Result<(), Fail> {
    let alloc = rt.alloc();
    let cluster = Cluster::new(3).ok_or("three targets")?;
    let mut world = first_objects(alloc, cluster)?;
    let mut tree = PlainTree::new(alloc, cluster)?;
    for row in REQUESTS {
        assert!(rt;
            agrees(alloc, &mut world, &mut tree, row.0, row.1)?,
            "{}",
            row.0
        );
    }
    Ok(())
}
