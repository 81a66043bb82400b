ghost use Rattle.std.specs.Prelude.{◌≡◌, ◌++◌, length, OnOk, OnErr};
ghost use Rattle.std.specs.List.{flat_map};
ghost use Rattle.std.specs.BTreeMap.{IsOrdered};
ghost use Rattle.tree_model.specs.Fids.{fid_cmp, name_cmp};
ghost use Rattle.tree_model.specs.ReplyText.{kind_word, mode_text, attr_text};
ghost use Rattle.fid_space.specs.Fronts.{IsFront};
ghost use Rattle.tree_model.specs.TreeText.{tree_head, entry_count, node_text, entry_text, names_text, xattr_text, xattrs_text};

use crate::directory::Entries;
use crate::name::Name;
use crate::node::Node;
use crate::spelling::print_name;
use fid_space::{Bytes, Fid, print_hex};
use std::alloc::AllocError as Memory;
use std::collections::BTreeMap;

fn kind_word(dir: bool) -> &'static str
    ensures { result.now ≡ kind_word dir }
{
    if dir { "dir" } else { "file" }
}

/// Adds the attributes of a node, with its mode in four octal digits. Want of memory adds nothing.
pub fn print_attr(
    dir: bool,
    mode: u16,
    uid: u32,
    gid: u32,
    links: u32,
    out: &mut Bytes,
) -> Result<(), Memory>
    ensures ok { OnOk result (out.new ≡ out.old ++ attr_text dir mode uid gid links) }
    ensures err { OnErr result (out.new ≡ out.old) }
{
    let kind = kind_word(dir);
    let (a, b, c, d) = (mode / 512 % 8, mode / 64 % 8, mode / 8 % 8, mode % 8);
    let text = format!(in out.alloc(); "{kind} {a}{b}{c}{d} {uid} {gid} {links}")?;
    out.append(text.as_bytes())
}

/// Adds the first line of a tree's text. Want of memory adds nothing.
pub fn print_head(
    nodes: &BTreeMap<Fid, Node>,
    directories: &BTreeMap<Fid, Entries>,
    out: &mut Bytes,
) -> Result<(), Memory>
    ensures ok { OnOk result (out.new ≡ out.old ++ tree_head (length nodes.now.entries) (entry_count directories.now.entries)) }
    ensures err { OnErr result (out.new ≡ out.old) }
    ensures nodes_ordered { IsOrdered fid_cmp nodes.now }
    ensures directories_ordered { IsOrdered fid_cmp directories.now }
{
    let nodes = nodes.len();
    let _few = directories.len();
    let entries = count_entries(directories);
    let text = format!(in out.alloc(); "tree {nodes} {entries}\n")?;
    out.append(text.as_bytes())
}

/// How many entries the directories have.
fn count_entries(directories: &BTreeMap<Fid, Entries>) -> u128
    ensures { result ≡ entry_count directories.now.entries }
{
    let mut count: u128 = 0;
    let _few = directories.len();
    for (_directory, entries) in directories {
        count += entries.len() as u128;
    }
    count
}

/// Adds a line for each node. Want of memory leaves a front of them.
pub fn print_nodes(nodes: &BTreeMap<Fid, Node>, out: &mut Bytes) -> Result<(), Memory>
    ensures ok { OnOk result (out.new ≡ out.old ++ flat_map node_text nodes.now.entries) }
    ensures front { OnErr result (IsFront out.old out.new (flat_map node_text nodes.now.entries)) }
{
    for (fid, node) in nodes {
        print_node(*fid, node, out)?;
    }
    Ok(())
}

fn print_node(fid: Fid, node: &Node, out: &mut Bytes) -> Result<(), Memory>
    ensures ok { OnOk result (out.new ≡ out.old ++ node_text (fid, node.now)) }
    ensures err { OnErr result (out.new ≡ out.old) }
{
    let mut line = Bytes::new(out.alloc());
    line.append(b"node ")?;
    fid.print(&mut line)?;
    line.push(b' ')?;
    print_attr(
        node.dir, node.mode, node.uid, node.gid, node.links, &mut line,
    )?;
    line.push(b'\n')?;
    out.append(line.bytes())
}

/// Adds a line for each entry. Want of memory leaves a front of them.
pub fn print_entries(directories: &BTreeMap<Fid, Entries>, out: &mut Bytes) -> Result<(), Memory>
    ensures ok { OnOk result (out.new ≡ out.old ++ flat_map names_text directories.now.entries) }
    ensures front { OnErr result (IsFront out.old out.new (flat_map names_text directories.now.entries)) }
{
    for (directory, entries) in directories {
        print_names(*directory, entries, out)?;
    }
    Ok(())
}

fn print_names(directory: Fid, entries: &Entries, out: &mut Bytes) -> Result<(), Memory>
    ensures ok { OnOk result (out.new ≡ out.old ++ names_text (directory, entries.now)) }
    ensures front { OnErr result (IsFront out.old out.new (names_text (directory, entries.now))) }
{
    print_name_list(directory, entries.inner(), out)
}

fn print_name_list(
    directory: Fid,
    names: &BTreeMap<Name, Fid>,
    out: &mut Bytes,
) -> Result<(), Memory>
    ensures ok { OnOk result (out.new ≡ out.old ++ flat_map (entry_text directory) names.now.entries) }
    ensures front { OnErr result (IsFront out.old out.new (flat_map (entry_text directory) names.now.entries)) }
    ensures ordered { IsOrdered name_cmp names.now }
{
    let _len = names.len();
    for (name, fid) in names {
        print_entry(directory, name, *fid, out)?;
    }
    Ok(())
}

fn print_entry(directory: Fid, name: &Name, fid: Fid, out: &mut Bytes) -> Result<(), Memory>
    ensures ok { OnOk result (out.new ≡ out.old ++ entry_text directory (name.now, fid)) }
    ensures err { OnErr result (out.new ≡ out.old) }
{
    let mut line = Bytes::new(out.alloc());
    line.append(b"entry ")?;
    directory.print(&mut line)?;
    line.push(b' ')?;
    print_name(name.bytes(), &mut line)?;
    line.push(b' ')?;
    fid.print(&mut line)?;
    line.push(b'\n')?;
    out.append(line.bytes())
}

/// Adds a line for each extended attribute. Want of memory leaves a front of them.
pub fn print_xattrs(nodes: &BTreeMap<Fid, Node>, out: &mut Bytes) -> Result<(), Memory>
    ensures ok { OnOk result (out.new ≡ out.old ++ flat_map xattrs_text nodes.now.entries) }
    ensures front { OnErr result (IsFront out.old out.new (flat_map xattrs_text nodes.now.entries)) }
{
    for (fid, node) in nodes {
        print_node_xattrs(*fid, node, out)?;
    }
    Ok(())
}

fn print_node_xattrs(fid: Fid, node: &Node, out: &mut Bytes) -> Result<(), Memory>
    ensures ok { OnOk result (out.new ≡ out.old ++ xattrs_text (fid, node.now)) }
    ensures front { OnErr result (IsFront out.old out.new (xattrs_text (fid, node.now))) }
{
    print_xattr_list(fid, node.xattrs.inner(), out)
}

fn print_xattr_list(fid: Fid, xattrs: &BTreeMap<Name, Bytes>, out: &mut Bytes) -> Result<(), Memory>
    ensures ok { OnOk result (out.new ≡ out.old ++ flat_map (xattr_text fid) xattrs.now.entries) }
    ensures front { OnErr result (IsFront out.old out.new (flat_map (xattr_text fid) xattrs.now.entries)) }
    ensures ordered { IsOrdered name_cmp xattrs.now }
{
    let _len = xattrs.len();
    for (name, value) in xattrs {
        print_xattr(fid, name, value, out)?;
    }
    Ok(())
}

fn print_xattr(fid: Fid, name: &Name, value: &Bytes, out: &mut Bytes) -> Result<(), Memory>
    ensures ok { OnOk result (out.new ≡ out.old ++ xattr_text fid (name.now, value.now)) }
    ensures err { OnErr result (out.new ≡ out.old) }
{
    let mut line = Bytes::new(out.alloc());
    line.append(b"xattr ")?;
    fid.print(&mut line)?;
    line.push(b' ')?;
    print_name(name.bytes(), &mut line)?;
    line.push(b' ')?;
    print_hex(value.bytes(), &mut line)?;
    line.push(b'\n')?;
    out.append(line.bytes())
}
