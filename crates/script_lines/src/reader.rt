//! A reader that takes a script from a source, line by line: docs/FORMAT.md, 'Scripts'.
ghost use Rattle.std.specs.Prelude.{◌≡◌, ◌<◌, ◌≤◌, ◌+◌, ℕ, List, Option, [], ◌∷◌, ◌++◌, length, drop};
ghost use Rattle.std.specs.Prelude.{IfSome, IfNone, IfOk, OnOk, OnErr};
ghost use Rattle.base_model.specs.Fault.{HasCause};
ghost use Rattle.script_lines.specs.Reader.{ReadsTellScripts};

use crate::script::{MOST_LINE, MOST_SCRIPT};
use dd_io::{Source, SourceFault};
use std::marker::Model;

// How many bytes are read at once.
const PIECE: usize = 4_096;

/// What comes next of a script.
#[derive(Clone, Copy)]
pub enum NextLine {
    /// A line, without the LF that ended it: `ScriptReader::line`.
    Line,
    /// The script has ended.
    End,
    /// The line has more bytes than a line may have, or isn't ended.
    Wrong,
    /// The script has more bytes than a script may have.
    TooMany,
}

/// Takes a script from a source, line by line. It takes no memory.
#[derive(Drop)]
pub struct ScriptReader {
    piece: [u8; PIECE],
    at: usize,
    end: usize,
    line: [u8; MOST_LINE],
    length: usize,
    taken: u64,
}

impl Model for ScriptReader {
    ghost use Rattle.std.specs.Prelude.{take, drop};
    ghost use Rattle.script_lines.specs.Reader.{ReaderState, IsWithin};

    ghost Value = { ReaderState };

    ghost view = { λ r. record {
      ready = drop r.at (take r.end r.piece);
      line = take r.length r.line;
      taken = r.taken;
    } };

    ghost invariant = { λ r. IsWithin r.at r.end r.length r.taken };
}

impl ScriptReader {
    ghost use Rattle.script_lines.specs.Reader.{ReaderState, fresh_reader, TakesOff, IsOut, IsPart, IsInLine, IsNext, IsTold};

    /// A reader that has taken nothing. It is to be given one source alone.
    pub fn new() -> ScriptReader
        ensures { result ≡ fresh_reader }
    {
        ScriptReader {
            piece: [0; PIECE],
            at: 0,
            end: 0,
            line: [0; MOST_LINE],
            length: 0,
            taken: 0,
        }
    }

    /// The line that `next` took, without its LF.
    pub fn line(&self) -> &[u8]
        ensures { result.now ≡ self.now.line }
    {
        &self.line[..self.length]
    }

    /// Takes the next line from the source. Where the source fails, all that it gave was taken, and what was taken of the line is lost
    /// with the next call.
    pub fn next<S: Source>(&mut self, source: &mut S) -> Result<NextLine, SourceFault>
        ensures next { IfOk result (λ next. IsNext next self.old self.new (S.view source.old).left (S.view source.new).left) }
        ensures err { OnErr result (TakesOff self.new.line self.old self.new (S.view source.old).left (S.view source.new).left) }
        ensures drained { OnErr result (self.new.ready ≡ []) }
        ensures part { IsPart self.new.line }
        ensures cause { HasCause (S.view source.old).faults (S.view source.new).faults result }
    {
        self.clear();
        loop {
            if let Some(next) = self.go_on(source)? {
                return Ok(next);
            }
        }
    }

    // Looks at the byte that is next, and takes it to the line, where the line goes on with it.
    fn go_on<S: Source>(&mut self, source: &mut S) -> Result<Option<NextLine>, SourceFault>
        ensures told { IfOk result (λ told. (first : ReaderState) (begun : Option (List ℕ))
            → IsInLine first self.old begun (S.view source.old).left
            → IsTold told first self.new begun (S.view source.new).left) }
        ensures err { OnErr result ((first : ReaderState) (begun : Option (List ℕ))
            → IsInLine first self.old begun (S.view source.old).left
            → IsInLine first self.new begun (S.view source.new).left) }
        ensures taken { IfOk result (λ told. IfNone told (self.new.taken ≡ self.old.taken + 1)) }
        ensures within { self.new.taken ≤ MOST_SCRIPT }
        ensures drained { OnErr result (self.new.ready ≡ []) }
        ensures cause { HasCause (S.view source.old).faults (S.view source.new).faults result }
    {
        self.fill(source)?;
        let Some(byte) = self.first() else {
            return Ok(Some(self.at_end()));
        };
        if self.taken == MOST_SCRIPT {
            return Ok(Some(NextLine::TooMany));
        }
        self.pass();
        if byte == b'\n' {
            return Ok(Some(NextLine::Line));
        }
        if self.length == MOST_LINE {
            return Ok(Some(NextLine::Wrong));
        }
        self.keep(byte);
        Ok(None)
    }

    // Reads from the source, where no byte is ready.
    fn fill<S: Source>(&mut self, source: &mut S) -> Result<(), SourceFault>
        ensures takes { TakesOff [] self.old self.new (S.view source.old).left (S.view source.new).left }
        ensures line { self.new.line ≡ self.old.line }
        ensures out { OnOk result (self.new.ready ≡ [] → IsOut self.new (S.view source.old).left (S.view source.new).left) }
        ensures drained { OnErr result (self.new.ready ≡ []) }
        ensures cause { HasCause (S.view source.old).faults (S.view source.new).faults result }
    {
        if self.at == self.end {
            let count = source.read(&mut self.piece)?;
            self.at = 0;
            self.end = count;
        }
        Ok(())
    }

    // The first byte that is ready.
    fn first(&self) -> Option<u8>
        ensures some { IfSome result (λ byte. (rest : List ℕ) × (self.now.ready ≡ byte ∷ rest)) }
        ensures none { IfNone result (self.now.ready ≡ []) }
    {
        if self.at < self.end {
            Some(self.piece[self.at])
        } else {
            None
        }
    }

    // What comes next, where no byte does.
    fn at_end(&self) -> NextLine
        ensures end { length self.now.line ≡ 0 → result ≡ NextLine.End }
        ensures wrong { 1 ≤ length self.now.line → result ≡ NextLine.Wrong }
    {
        if self.length == 0 {
            NextLine::End
        } else {
            NextLine::Wrong
        }
    }

    // The line is empty.
    fn clear(&mut self)
        ensures same { self.new ≡ record self.old { line = [] } }
        ensures within { self.new.taken ≤ MOST_SCRIPT }
    {
        self.length = 0;
    }

    // Takes the first byte that is ready.
    fn pass(&mut self)
        requires some { 1 ≤ length self.old.ready }
        requires room { self.old.taken < MOST_SCRIPT }
        ensures { self.new ≡ record self.old { ready = drop 1 self.old.ready; taken = self.old.taken + 1 } }
    {
        self.at += 1;
        self.taken += 1;
    }

    // Adds a byte to the line.
    fn keep(&mut self, byte: u8)
        requires { length self.old.line < MOST_LINE }
        ensures { self.new ≡ record self.old { line = self.old.line ++ byte ∷ [] } }
    {
        self.line[self.length] = byte;
        self.length += 1;
    }
}

/// A law for proofs that stand on it: what readers say tells scripts, and how bytes break. The function does nothing.
pub fn reads_tell_scripts()
    ensures { ReadsTellScripts }
{}
