//! The matchers of a session's patterns, made in the order of its commands before the first of them is answered.
ghost use Rattle.std.specs.Prelude.{◌≡◌, ◌≤◌, ◌++◌, [], ◌∷◌, length, map, true, IfOk, IfErr, OnOk, IsErrOf};
ghost use Rattle.machine.specs.Lawful.{reads_in};
ghost use Rattle.outer.specs.Count.{Rose};
ghost use Rattle.script.specs.declared.limits.TheConstants.{MAX_COMMANDS};
ghost use Rattle.buffer_cli.specs.Patterns.{pattern_in, patterns_among, session_patterns};
ghost use Rattle.buffer_cli.specs.Making.{IsRefusedAmong, IsRefusedIn, is_refusal};

use machine::{Command, Read};
use outer::{MakeRefusal, PatternMaker};
use script::MAX_COMMANDS;
use std::alloc::Global;

/// Why the matchers of a session weren't made.
#[derive(Drop)]
pub(crate) enum MakeFault {
    /// A pattern of this command was refused. Commands are counted from 1.
    Refused { command: u32 },
    NoMemory,
}

/// Makes a matcher of each pattern of these commands, in order.
pub(crate) fn make_all<P: PatternMaker>(
    alloc: Global,
    patterns: &mut P,
    commands: &[Command],
) -> Result<Vec<P::M>, MakeFault>
    requires { length commands.now ≤ MAX_COMMANDS }
    ensures count { P.refusals patterns.old ≤ P.refusals patterns.new }
    ensures made { IfOk result (λ ms. map P.M.tells ms.items ≡ map (P.hits patterns.old) (session_patterns commands.now)) }
    ensures refused { IfErr result (IsRefusedIn commands.now (P.refused patterns.new)) }
    ensures cause { IfErr result (λ fault. is_refusal fault ≡ true → Rose (P.refusals patterns.old) (P.refusals patterns.new)) }
{
    let mut matchers = Vec::new(alloc);
    let mut number = 0;
    for command in commands {
        number += 1;
        match make_for(alloc, patterns, reads_of(command), &mut matchers) {
            Ok(()) => {}
            Err(MakeRefusal::Refused) => return Err(MakeFault::Refused { command: number }),
            Err(MakeRefusal::NoMemory) => return Err(MakeFault::NoMemory),
        }
    }
    Ok(matchers)
}

/// The reads of a command.
pub(crate) fn reads_of(command: &Command) -> &[Read]
    ensures { result.now ≡ reads_in command.now }
{
    match command {
        Command::Read { reads, .. } => reads.as_slice(),
        Command::Send { reads, .. } => reads.as_slice(),
        _ => &[],
    }
}

// Makes a matcher of each pattern of these reads, behind those that were made before.
fn make_for<P: PatternMaker>(
    alloc: Global,
    patterns: &mut P,
    reads: &[Read],
    matchers: &mut Vec<P::M>,
) -> Result<(), MakeRefusal>
    ensures same { P.hits patterns.new ≡ P.hits patterns.old }
    ensures count { P.refusals patterns.old ≤ P.refusals patterns.new }
    ensures made { OnOk result (map P.M.tells matchers.new.items ≡ map P.M.tells matchers.old.items ++ map (P.hits patterns.old) (patterns_among reads.now)) }
    ensures refused { IsErrOf result MakeRefusal.Refused → IsRefusedAmong reads.now (P.refused patterns.new) }
    ensures cause { IsErrOf result MakeRefusal.Refused → Rose (P.refusals patterns.old) (P.refusals patterns.new) }
{
    for read in reads {
        match make_one(alloc, patterns, read, matchers) {
            Ok(()) => {}
            Err(refusal) => return Err(refusal),
        }
    }
    Ok(())
}

// Makes a matcher of the pattern of a read, if it has one.
fn make_one<P: PatternMaker>(
    alloc: Global,
    patterns: &mut P,
    read: &Read,
    matchers: &mut Vec<P::M>,
) -> Result<(), MakeRefusal>
    ensures same { P.hits patterns.new ≡ P.hits patterns.old }
    ensures count { P.refusals patterns.old ≤ P.refusals patterns.new }
    ensures made { OnOk result (map P.M.tells matchers.new.items ≡ map P.M.tells matchers.old.items ++ map (P.hits patterns.old) (pattern_in read.now)) }
    ensures refused { IsErrOf result MakeRefusal.Refused → IsRefusedAmong (read.now ∷ []) (P.refused patterns.new) }
    ensures cause { IsErrOf result MakeRefusal.Refused → Rose (P.refusals patterns.old) (P.refusals patterns.new) }
{
    match read {
        Read::Pattern { pattern, .. } => {
            let matcher = patterns.make(alloc, pattern.as_str())?;
            match matchers.push(matcher) {
                Ok(()) => Ok(()),
                Err(_) => Err(MakeRefusal::NoMemory),
            }
        }
        _ => Ok(()),
    }
}
