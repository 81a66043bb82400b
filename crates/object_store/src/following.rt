ghost use Rattle.std.specs.Prelude.{◌≡◌, ◌≤◌, ℕ, List, Some};
ghost use Rattle.std.specs.BTreeMap.{IsOrdered};
ghost use Rattle.fid_space.specs.declared.fid.Fid.{Fid};
ghost use Rattle.tree_model.specs.Fids.{fid_cmp, name_cmp};
ghost use Rattle.std.specs.Option.{option_map};
ghost use Rattle.object_store.specs.Following.{Entry, Attribute, behind, attr_of, first_node, next_node, directory_of, entry_in, first_entry, entry_there, next_entry, attribute_in, first_attribute, attribute_there, next_attribute};

use crate::body::{Body, ObjectKind};
use crate::object::Stored;
use crate::objects::Objects;
use fid_space::Fid;
use std::collections::BTreeMap;
use std::collections::btree_map::Range;
use std::ops::Bound;
use tree_model::{Name, Reply};

/// The objects behind a FID, or all.
fn objects_behind(objects: &BTreeMap<Fid, Stored>, after: Option<Fid>) -> Range<'_, Fid, Stored>
    ensures list { result ≡ behind fid_cmp after objects.now.entries }
    ensures ordered { IsOrdered fid_cmp objects.now }
{
    let start = match after {
        Some(fid) => Bound::Excluded(fid),
        None => Bound::Unbounded,
    };
    objects.range((start, Bound::Unbounded))
}

/// What getattr replies of a file or a directory.
fn attr_of(body: &Body) -> Option<Reply>
    requires { body.now.mode ≤ 4095 }
    ensures { result ≡ attr_of body.now }
{
    let dir = match body.kind {
        ObjectKind::File => false,
        ObjectKind::Directory => true,
        ObjectKind::Stripe => return None,
    };
    Some(Reply::Attr {
        dir,
        mode: body.mode as u16,
        uid: body.uid,
        gid: body.gid,
        links: body.links,
    })
}

fn first_node(objects: Range<'_, Fid, Stored>) -> Option<(Fid, Reply)>
    ensures { result ≡ first_node objects.entry }
{
    for (fid, object) in objects {
        if let Some(reply) = attr_of(object.body()) {
            return Some((*fid, reply));
        }
    }
    None
}

/// The entries behind a name, or all.
fn names_behind<'a, V>(names: &'a BTreeMap<Name, V>, after: Option<&Name>) -> Range<'a, Name, V>
    ensures list { result ≡ behind name_cmp (option_map (λ n. n.now) after.entry) names.now.entries }
    ensures ordered { IsOrdered name_cmp names.now }
{
    let start = match after {
        Some(name) => Bound::Excluded(name),
        None => Bound::Unbounded,
    };
    names.range((start, Bound::Unbounded))
}

/// The directory whose entries an object has.
fn directory_of(fid: Fid, body: &Body) -> Fid
    ensures { result ≡ directory_of fid body.now }
{
    match body.kind {
        ObjectKind::Stripe => body.fid,
        ObjectKind::File | ObjectKind::Directory => fid,
    }
}

/// The first entry of an object behind a name, or of all: the object, its directory, the name, the child.
fn entry_in<'a>(
    fid: Fid,
    object: &'a Stored,
    after: Option<&Name>,
) -> Option<(Fid, Fid, &'a Name, Fid)>
    ensures { option_map {U = Entry} (λ x. (x.0, x.1, x.2.now, x.3)) result ≡ entry_in fid (option_map (λ n. n.now) after.entry) object.now }
{
    let mut names = names_behind(object.entries().inner(), after);
    match names.next() {
        Some((name, child)) => Some((fid, directory_of(fid, object.body()), name, *child)),
        None => None,
    }
}

fn first_entry<'a>(objects: Range<'a, Fid, Stored>) -> Option<(Fid, Fid, &'a Name, Fid)>
    ensures { option_map {U = Entry} (λ x. (x.0, x.1, x.2.now, x.3)) result ≡ first_entry objects.entry }
{
    for (fid, object) in objects {
        if let Some(found) = entry_in(*fid, object, None) {
            return Some(found);
        }
    }
    None
}

fn entry_there<'a>(
    fid: Fid,
    name: &Name,
    object: Option<&'a Stored>,
) -> Option<(Fid, Fid, &'a Name, Fid)>
    ensures { option_map {U = Entry} (λ x. (x.0, x.1, x.2.now, x.3)) result ≡ entry_there fid name.now (option_map (λ o. o.now) object.entry) }
{
    entry_in(fid, object?, Some(name))
}

/// The first attribute of an object behind a name, or of all: the object, the name, the value.
fn attribute_in<'a>(
    fid: Fid,
    object: &'a Stored,
    after: Option<&Name>,
) -> Option<(Fid, &'a Name, &'a [u8])>
    ensures { option_map {U = Attribute} (λ x. (x.0, x.1.now, x.2.now)) result ≡ attribute_in fid (option_map (λ n. n.now) after.entry) object.now }
{
    let mut names = names_behind(object.attributes().inner(), after);
    match names.next() {
        Some((name, value)) => Some((fid, name, value.bytes())),
        None => None,
    }
}

fn first_attribute<'a>(objects: Range<'a, Fid, Stored>) -> Option<(Fid, &'a Name, &'a [u8])>
    ensures { option_map {U = Attribute} (λ x. (x.0, x.1.now, x.2.now)) result ≡ first_attribute objects.entry }
{
    for (fid, object) in objects {
        if let Some(found) = attribute_in(*fid, object, None) {
            return Some(found);
        }
    }
    None
}

fn attribute_there<'a>(
    fid: Fid,
    name: &Name,
    object: Option<&'a Stored>,
) -> Option<(Fid, &'a Name, &'a [u8])>
    ensures { option_map {U = Attribute} (λ x. (x.0, x.1.now, x.2.now)) result ≡ attribute_there fid name.now (option_map (λ o. o.now) object.entry) }
{
    attribute_in(fid, object?, Some(name))
}

impl Objects {
    /// The file or directory that comes next by FID, with the reply to its getattr; the first one after
    /// `None`. It takes no memory.
    #[tactic(auto, unfolding(crate::specs::Following::next_node))]
    pub fn next_node(&self, after: Option<Fid>) -> Option<(Fid, Reply)>
        ensures { result ≡ next_node self.now after }
    {
        first_node(objects_behind(self.inner(), after))
    }

    /// The entry that comes next by its object and its name, as the object, its directory, the name and what
    /// it stands for; the first one after `None`. It takes no memory.
    #[tactic(auto, unfolding(crate::specs::Following::next_entry))]
    pub fn next_entry<'a>(
        &'a self,
        after: Option<(Fid, &Name)>,
    ) -> Option<(Fid, Fid, &'a Name, Fid)>
        ensures { option_map {U = Entry} (λ x. (x.0, x.1, x.2.now, x.3)) result ≡ next_entry self.now (option_map {U = Fid × List ℕ} (λ x. (x.0, x.1.now)) after.entry) }
    {
        match after {
            Some((fid, name)) => self.entry_behind(fid, name),
            None => first_entry(objects_behind(self.inner(), None)),
        }
    }

    #[tactic(auto, unfolding(crate::specs::Following::next_entry))]
    fn entry_behind<'a>(&'a self, fid: Fid, name: &Name) -> Option<(Fid, Fid, &'a Name, Fid)>
        ensures { option_map {U = Entry} (λ x. (x.0, x.1, x.2.now, x.3)) result ≡ next_entry self.now (Some (fid, name.now)) }
    {
        match entry_there(fid, name, self.get(fid)) {
            Some(found) => Some(found),
            None => first_entry(objects_behind(self.inner(), Some(fid))),
        }
    }

    /// The extended attribute that comes next by its object and its name, as the object, the name and the
    /// value; the first one after `None`. It takes no memory.
    #[tactic(auto, unfolding(crate::specs::Following::next_attribute))]
    pub fn next_attribute<'a>(
        &'a self,
        after: Option<(Fid, &Name)>,
    ) -> Option<(Fid, &'a Name, &'a [u8])>
        ensures { option_map {U = Attribute} (λ x. (x.0, x.1.now, x.2.now)) result ≡ next_attribute self.now (option_map {U = Fid × List ℕ} (λ x. (x.0, x.1.now)) after.entry) }
    {
        match after {
            Some((fid, name)) => self.attribute_behind(fid, name),
            None => first_attribute(objects_behind(self.inner(), None)),
        }
    }

    #[tactic(auto, unfolding(crate::specs::Following::next_attribute))]
    fn attribute_behind<'a>(&'a self, fid: Fid, name: &Name) -> Option<(Fid, &'a Name, &'a [u8])>
        ensures { option_map {U = Attribute} (λ x. (x.0, x.1.now, x.2.now)) result ≡ next_attribute self.now (Some (fid, name.now)) }
    {
        match attribute_there(fid, name, self.get(fid)) {
            Some(found) => Some(found),
            None => first_attribute(objects_behind(self.inner(), Some(fid))),
        }
    }
}
