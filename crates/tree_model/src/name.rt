ghost use Rattle.std.specs.Prelude.{◌≡◌, ◌≢◌, ◌↔◌, ◌≤◌, ℕ, List, IsTrue, IfOk, OnOk, IsErrOf};
ghost use Rattle.std.specs.List.{AllByRecursion};
ghost use Rattle.tree_model.specs.Names.{AreBytes, IsName, name_word};
ghost use Rattle.std.proofs.Common.{rules};
ghost use Rattle.std.specs.Cmp.{partial_order_from_own_ties};
ghost use Rattle.std.specs.Cmp.Rules.{comparing};
ghost use Rattle.std.specs.Ordering.{nat_cmp, as_partial_cmp};
ghost use Rattle.std.specs.Cmp.Lexicographic.{slice_cmp, pointwise};
ghost use Rattle.std.specs.Prelude.{◌==◌};

use crate::spelling::spelled;
use std::alloc::{AllocError as Memory, Global};
use std::cmp::Ordering;
use std::marker::Model;

/// The name of an entry: 1 to 255 bytes without NUL and `/`, and neither `.` nor `..`. POSIX calls it a
/// filename; 255 bytes are the most that the Lustre Operations Manual allows. Names are ordered by bytes.
#[derive(Clone, Debug, Drop)]
pub struct Name {
    inner: Vec<u8>,
}

impl Model for Name {
    ghost use Rattle.std.specs.Prelude.{List, ℕ};

    ghost Value = { List ℕ };

    ghost use Rattle.tree_model.specs.Names.{IsName};

    ghost view = { λ n. n.inner.items };

    ghost invariant = { λ n. IsName n.inner.items };
}

/// Why bytes made no name.
#[derive(Clone, Copy, Debug, PartialEq, Eq)]
pub enum NameFault {
    /// The bytes are no name.
    BadName,
    /// Memory ran out.
    Memory,
}

impl Name {
    /// The name with these bytes. What is no name is told before memory is taken.
    pub fn new(alloc: Global, bytes: &[u8]) -> Result<Name, NameFault>
        ensures ok { IfOk result (λ n. (n ≡ bytes.now) × IsName n) }
        ensures bad { IsErrOf result NameFault.BadName → ¬ IsName bytes.now }
        ensures only { ¬ IsName bytes.now → result ≡ Err NameFault.BadName }
    {
        if !is_name(bytes) {
            return Err(NameFault::BadName);
        }
        match Vec::from_slice(alloc, bytes) {
            Ok(inner) => Ok(Name { inner }),
            Err(_) => Err(NameFault::Memory),
        }
    }

    /// The name that a word of a text spells: a byte of it that isn't one of 0x21 to 0x7e, or is `%`, stands as `%` and
    /// two lower-case hexadecimal digits, any other for itself.
    pub fn parse(alloc: Global, word: &[u8]) -> Result<Name, NameFault>
        ensures ok { IfOk result (λ n. IsName n × (word.now ≡ name_word n)) }
        ensures bad { IsErrOf result NameFault.BadName → (n : List ℕ) → IsName n → word.now ≢ name_word n }
    {
        let bytes = match spelled(alloc, word) {
            Ok(Some(bytes)) => bytes,
            Ok(None) => return Err(NameFault::BadName),
            Err(_) => return Err(NameFault::Memory),
        };
        Name::new(alloc, bytes.as_slice())
    }

    /// Lends the bytes, without escapes.
    pub fn bytes(&self) -> &[u8]
        ensures bytes { result.now ≡ self.now }
        ensures is_name { IsName self.now }
    {
        self.inner.as_slice()
    }

    /// A copy that takes its memory from the allocator.
    pub fn copy(&self, alloc: Global) -> Result<Name, Memory>
        ensures { IfOk result (λ n. n ≡ self.now) }
    {
        Ok(Name {
            inner: Vec::from_slice(alloc, self.inner.as_slice())?,
        })
    }
}

fn is_name(bytes: &[u8]) -> bool
    ensures { IsTrue result ↔ IsName bytes.now }
{
    1 <= bytes.len()
        && bytes.len() <= 255
        && have_no_end(bytes)
        && bytes != b".".as_slice()
        && bytes != b"..".as_slice()
}

/// Whether no byte is NUL or `/`, which end a name in a path.
fn have_no_end(bytes: &[u8]) -> bool
    ensures { IsTrue result ↔ (AreBytes bytes.now × AllByRecursion (λ b. (b ≢ 0) × (b ≢ 0x2f)) bytes.now) }
{
    for b in bytes {
        if *b == 0 || *b == 0x2f {
            return false;
        }
    }
    true
}

impl PartialEq for Name {
    ghost eq = { pointwise ◌==◌ };

    ghost laws = { Prim.search (comparing, rules) };

    fn eq(&self, other: &Name) -> bool {
        self.inner.as_slice() == other.inner.as_slice()
    }
}

impl Eq for Name {
    ghost laws = { Prim.search (comparing, rules) };
}

impl Ord for Name {
    ghost cmp = { slice_cmp nat_cmp };

    ghost total = { Prim.search (comparing, rules) };

    ghost matches_partial_cmp = { Prim.search (comparing, rules) };

    ghost matches_eq = { Prim.search (comparing, rules) };

    fn cmp(&self, other: &Name) -> Ordering {
        self.inner.as_slice().cmp(other.inner.as_slice())
    }
}

impl PartialOrd for Name {
    ghost partial_cmp = { as_partial_cmp (slice_cmp nat_cmp) };

    ghost laws = { partial_order_from_own_ties (Prim.search (comparing, rules)) (Prim.search (comparing, rules)) };

    fn partial_cmp(&self, other: &Name) -> Option<Ordering> {
        Some(self.cmp(other))
    }
}
