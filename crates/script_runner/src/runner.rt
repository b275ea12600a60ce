//! A runner: the lines of a script over a core.
ghost use Rattle.std.specs.Prelude.{◌≡◌, ◌≢◌, None, replicate};
ghost use Rattle.actor_parts.specs.declared.actor.TheConstants.{ACTORS};
ghost use Rattle.script_lines.specs.Grammar as grammar;
ghost use Rattle.script_lines.specs.LineValue.{line_value};
ghost use Rattle.script_lines.specs.ReplyValue.{reply_value};
ghost use Rattle.store_core.specs.State.{IsRunning};
ghost use Rattle.script_runner.specs.Runner.{IsRunnable, Replies, RunsBytes, RunsWith, Sent, Tells, status_in};

use crate::acting::reply_to;
use crate::reopening::reopen;
use crate::sessions::Sessions;
use actor_parts::SegBuf;
use dd_io::Sink;
use reply_text::{Ending, status_of};
use script_lines::{Line, MOST_LINE, Reply, print_reply, read_line};
use std::alloc::Global;
use std::marker::Model;
use store_core::HasState;

/// Why a script ends at a line.
pub enum Halt {
    /// The bytes are no line.
    NoLine,
    /// The sink failed, there was no memory for the reply, or the store was not opened again.
    Ended(Ending),
}

/// Runs the lines of a script over a core, one after the other: `docs/FORMAT.md`, 'Scripts'. It holds the sessions of the
/// actors.
pub struct Runner<C: HasState> {
    alloc: Global,
    core: C,
    sessions: Sessions,
    buf: SegBuf,
}

impl<C: HasState> Model for Runner<C> {
    ghost use Rattle.store_core.specs.State.{IsRunning};
    ghost use Rattle.script_runner.specs.Acts.{RunnerState};

    ghost Value = { RunnerState C };

    ghost view = { λ r. record { core = r.core; sessions = r.sessions } };

    ghost invariant = { λ r. IsRunning (C.state r.core) };
}

// Writes the reply to a line.
fn send<K: Sink>(sink: &mut K, reply: &[u8]) -> Result<(), Ending>
    ensures { Sent reply.now result (K.view sink.old) (K.view sink.new) }
{
    match sink.write_all(reply) {
        Ok(()) => Ok(()),
        Err(_) => Err(Ending::Sink),
    }
}

// Prints a reply, and writes it.
fn tell<K: Sink>(alloc: Global, reply: &Reply<'_>, sink: &mut K) -> Result<(), Ending>
    ensures { Tells (reply_value reply.now) result (K.view sink.old) (K.view sink.new) }
{
    let text = print_reply(alloc, reply)?;
    send(sink, text.as_slice())
}

impl<C: HasState> Runner<C> {
    /// No actor gives a file yet.
    pub fn new(alloc: Global, core: C, sessions: Sessions, buf: SegBuf) -> Runner<C>
        requires running { IsRunning (C.state core) }
        requires none { sessions ≡ replicate ACTORS None }
        ensures core { result.core ≡ core }
        ensures sessions { result.sessions ≡ sessions }
    {
        Runner {
            alloc,
            core,
            sessions,
            buf,
        }
    }

    // Opens the store again, and replies. Where it is refused the script ends.
    fn run_reopen<K: Sink>(&mut self, sink: &mut K) -> Result<(), Ending>
        ensures { Replies C C.state grammar.Reopen result self.old self.new (K.view sink.old) (K.view sink.new) }
    {
        let reopened = reopen(
            self.alloc,
            &mut self.core,
            &mut self.sessions,
            &mut self.buf,
        );
        let files = match reopened {
            Ok(files) => files,
            Err(refusal) => {
                tell(self.alloc, &Reply::Refused { refusal }, sink)?;
                return Err(Ending::Refused(refusal));
            }
        };
        tell(self.alloc, &Reply::Opened { files }, sink)
    }

    // Runs another line, and replies.
    fn run_other<K: Sink>(&mut self, line: &Line<'_>, sink: &mut K) -> Result<(), Ending>
        requires other { line_value line.now ≢ grammar.Reopen }
        requires runnable { IsRunnable (line_value line.now) }
        ensures { Replies C C.state (line_value line.now) result self.old self.new (K.view sink.old) (K.view sink.new) }
    {
        let reply = reply_to(
            self.alloc,
            &mut self.core,
            &mut self.sessions,
            line,
            &mut self.buf,
        )?;
        send(sink, reply.as_slice())
    }

    // Runs a line, and replies.
    fn run_line<K: Sink>(&mut self, line: &Line<'_>, sink: &mut K) -> Result<(), Ending>
        requires { IsRunnable (line_value line.now) }
        ensures { Replies C C.state (line_value line.now) result self.old self.new (K.view sink.old) (K.view sink.new) }
    {
        if let Line::Reopen = line {
            return self.run_reopen(sink);
        }
        self.run_other(line, sink)
    }

    /// Runs bytes as a line of a script, without the LF that ends it, and writes the reply. Where they are no line, nothing is done.
    pub fn run<K: Sink>(&mut self, bytes: &[u8], sink: &mut K) -> Result<(), Halt>
        ensures { RunsBytes C C.state bytes.now result self.old self.new (K.view sink.old) (K.view sink.new) }
    {
        if bytes.len() > MOST_LINE {
            return Err(Halt::NoLine);
        }
        let Some(line) = read_line(bytes) else {
            return Err(Halt::NoLine);
        };
        match self.run_line(&line, sink) {
            Ok(()) => Ok(()),
            Err(ending) => Err(Halt::Ended(ending)),
        }
    }

    /// The same, by its status: 0 where the script goes on.
    pub fn line<K: Sink>(&mut self, bytes: &[u8], sink: &mut K) -> u8
        ensures { RunsWith C C.state bytes.now result self.old self.new (K.view sink.old) (K.view sink.new) }
    {
        match self.run(bytes, sink) {
            Ok(()) => 0,
            Err(Halt::NoLine) => 2,
            Err(Halt::Ended(ending)) => status_of(&ending),
        }
    }

    /// The core alone.
    pub fn into_core(self) -> C
        ensures core { result ≡ self.core }
        ensures running { IsRunning (C.state result) }
    {
        let Runner {
            alloc: _alloc,
            core,
            sessions: _sessions,
            buf: _buf,
        } = self;
        core
    }
}
