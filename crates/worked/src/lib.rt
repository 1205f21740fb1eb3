// The worked programs, proved of the rules themselves.

#![tactic(auto)]

ghost use Rattle.worked.specs.Worked.{Worked};

/// One result over all worked programs: what the rules say of them, without any code.
pub fn worked_programs()
    ensures { Worked }
{}
