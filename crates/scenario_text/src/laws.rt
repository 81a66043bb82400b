ghost use Rattle.std.specs.Prelude.{◌≡◌, ◌≤◌, ◌+◌, Bool, length, List, Option, ℕ};
ghost use Rattle.tree_model.specs.History.{IsLegal};
ghost use Rattle.scenario_text.specs.Machine.{AreTaken, Group, Run, State, asked_all, entries_of, lines_of, nothing_asked, start, targets_of};
ghost use Rattle.scenario_text.specs.Spelling.{Entry, IsCommand, IsEntry, line_of, spelling};
ghost use Rattle.scenario_text.specs.Worked.{AreApart, accepted};
ghost use Rattle.scenario_text.specs.declared.command.Command.{Command};

/// No two commands have one spelling, whichever clusters they are for. The call does nothing: its
/// contract is a law.
pub fn one_spelling_per_command()
    ensures { (a b : Option ℕ) (c d : Command) → IsCommand a c → IsCommand b d → spelling c ≡ spelling d → c ≡ d }
{}

/// What stands on a line is one command, or is skipped and is none. The call does nothing: its contract
/// is a law.
pub fn one_entry_per_line()
    ensures { (a b : Option ℕ) (e f : Entry) → IsEntry a e → IsEntry b f → line_of e ≡ line_of f → e ≡ f }
{}

/// What the lines of a run accept, in their order, is a legal history of the tree: each reply is the
/// tree's. The call does nothing: its contract is a law.
pub fn a_run_has_a_legal_history()
    ensures { (honest : Bool) (gs : List Group) (t : State) → Run (start honest) gs t → IsLegal (targets_of t) t.history }
{}

/// No number is accepted twice. The call does nothing: its contract is a law.
pub fn a_run_accepts_each_number_once()
    ensures { (honest : Bool) (gs : List Group) (t : State) → Run (start honest) gs t → AreApart (accepted (lines_of gs)) }
{}

/// What stands on the lines of a scenario may stand there one after another, and the lines of the
/// transcript change nothing of what was asked for. The call does nothing: its contract is a law.
pub fn commands_come_in_order()
    ensures taken { (honest : Bool) (gs : List Group) (t : State) → Run (start honest) gs t → AreTaken nothing_asked (entries_of gs) }
    ensures asked { (honest : Bool) (gs : List Group) (t : State) → Run (start honest) gs t → t.asked ≡ asked_all nothing_asked (entries_of gs) }
{}
