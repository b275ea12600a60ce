//! Scripts: docs/FORMAT.md, 'Scripts'.
ghost use Rattle.script_lines.specs.Script.{ScriptsAreClear, ScriptsEndOrBreak, ScriptsAreReadByLine};

/// How many bytes a line has at most, without the LF that ends it.
pub const MOST_LINE: usize = 8_192;

/// How many bytes a script has at most.
pub const MOST_SCRIPT: u64 = 4_294_967_296;

/// A law for proofs that stand on it: bytes are their lines, each ended by LF, and a rest, in one way. The function does
/// nothing.
pub fn scripts_are_clear()
    ensures { ScriptsAreClear }
{}

/// A law for proofs that stand on it: bytes are a script, or a bad line breaks it, or they are too many; the right lines
/// before are told in one way. The function does nothing.
pub fn scripts_end_or_break()
    ensures { ScriptsEndOrBreak }
{}

/// A law for proofs that stand on it: how a script is read line by line. The function does nothing.
pub fn scripts_are_read_by_line()
    ensures { ScriptsAreReadByLine }
{}
