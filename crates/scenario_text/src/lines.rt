//! Lists of lines.
ghost use Rattle.std.specs.Prelude.{◌≡◌, ◌++◌, ◌∷◌, [], length, slice_get, OnOk, OnErr};
ghost use Rattle.std.specs.Option.{option_copied};
ghost use Rattle.fid_space.specs.Fronts.{IsFront};
ghost use Rattle.scenario_text.specs.LineText.{texts};

use crate::line::Line;
use fid_space::Bytes;
use std::alloc::{AllocError as Memory, AllocFailed, Global};
use std::marker::Model;

/// A list of lines, which contracts see as a list.
#[derive(Drop)]
pub struct Lines {
    inner: Vec<Line>,
}

impl Model for Lines {
    ghost use Rattle.std.specs.Prelude.{List};
    ghost use Rattle.std.specs.Coded.{codes};
    ghost use Rattle.tree_model.specs.Tree.{coded_grown};
    ghost use Rattle.scenario_text.specs.declared.line.Line.{Line};

    ghost Value = { List Line };

    ghost coded = { Prim.hlevel (codes, coded_grown) };

    ghost view = { λ b. b.inner.items };
}

impl Lines {
    /// The empty list.
    pub fn new(alloc: Global) -> Lines
        ensures { result ≡ [] }
    {
        Lines {
            inner: Vec::new(alloc),
        }
    }

    /// Adds a line at the end. Want of memory changes nothing.
    pub fn push(&mut self, item: Line) -> Result<(), Memory>
        ensures ok { OnOk result (self.new ≡ self.old ++ item ∷ []) }
        ensures err { OnErr result (self.new ≡ self.old) }
    {
        match self.inner.push(item) {
            Ok(()) => Ok(()),
            Err(AllocFailed { .. }) => Err(Memory),
        }
    }

    /// How many lines there are.
    pub fn len(&self) -> usize
        ensures { result ≡ length self.now }
    {
        self.inner.len()
    }

    /// Lends the line at an index, counted from 0, or `None` past the end.
    pub fn get(&self, i: usize) -> Option<&Line>
        ensures { option_copied result ≡ slice_get self.now i }
    {
        self.inner.get(i)
    }

    /// Adds the texts of the lines, one after another. Want of memory leaves a front of them.
    pub fn print(&self, out: &mut Bytes) -> Result<(), Memory>
        ensures ok { OnOk result (out.new ≡ out.old ++ texts self.now) }
        ensures err { OnErr result (IsFront out.old out.new (texts self.now)) }
    {
        print_lines(self.inner.as_slice(), out)
    }
}

/// Adds the texts of lines, one after another. Want of memory leaves a front of them.
fn print_lines(lines: &[Line], out: &mut Bytes) -> Result<(), Memory>
    ensures ok { OnOk result (out.new ≡ out.old ++ texts lines.now) }
    ensures err { OnErr result (IsFront out.old out.new (texts lines.now)) }
{
    for line in lines {
        line.print(out)?;
    }
    Ok(())
}
