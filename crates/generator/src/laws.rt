//! Laws of made scripts, each the contract of a function that does nothing.
ghost use Rattle.generator.specs.Laws.{MadeScriptIsWithinLimits, MadeScriptHasNoPatterns, MadeScriptHasNoSaves};

/// A made script of one session is one that is read: it keeps all limits of a script, and its snapshots are in turn.
pub fn made_script_is_within_limits()
    ensures { MadeScriptIsWithinLimits }
{}

/// It reads no pattern.
pub fn made_script_has_no_patterns()
    ensures { MadeScriptHasNoPatterns }
{}

/// It saves nothing.
pub fn made_script_has_no_saves()
    ensures { MadeScriptHasNoSaves }
{}
