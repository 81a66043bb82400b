ghost use Rattle.std.specs.Prelude.{◌≡◌, ◌++◌, ℕ, List, Bool, OnOk, Err};
ghost use Rattle.scenario_text.specs.declared.command.TextFault.{TextFault};

use fid_space::Bytes;
use scenario_text::TextFault;

/// What runs the lines of a scenario, one after another.
pub trait LineRunner {
    /// From one state the line leads to the next, with this text.
    ghost takes: { Self → List ℕ → Self → List ℕ → Type 0 };

    /// The line is none that may come now.
    ghost refuses: { Self → List ℕ → Type 0 };

    /// What want of memory makes of a state.
    ghost leaves: { Self → Self → Type 0 };

    /// The end has come.
    ghost ended: { Self → Bool };

    /// Runs a line, and adds what comes of it. A line that is refused changes nothing, and adds nothing that
    /// counts; after want of memory nothing more can be run.
    fn take_line(&mut self, line: &[u8], out: &mut Bytes) -> Result<(), TextFault>
        ensures ok { OnOk result ((more : List ℕ) × takes self.old line.now self.new more × (out.new ≡ out.old ++ more)) }
        ensures refused { result ≡ Err TextFault.NotYet → refuses self.old line.now }
        ensures same { result ≡ Err TextFault.NotYet → self.new ≡ self.old }
        ensures memory { result ≡ Err TextFault.Memory → leaves self.old self.new };

    /// Whether the end has come.
    fn has_ended(&self) -> bool
        ensures { result ≡ ended self.now };
}
