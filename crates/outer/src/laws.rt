//! Facts about the definitions, for whoever reasons about hits: each function states one and does nothing.
ghost use Rattle.std.specs.Prelude.{◌<◌, length};
ghost use Rattle.points.specs.Literal.{hits};
ghost use Rattle.outer.specs.Leftmost.{AreLeftmost};

/// The hits of a literal are occurrences of it, no two of them have a unit in common, and every other occurrence has one
/// in common with a hit that starts before it.
pub fn hits_are_leftmost(text: &[u16], needle: &[u16])
    requires { 0 < length needle.now }
    ensures { AreLeftmost text.now needle.now (hits text.now needle.now) }
{}
