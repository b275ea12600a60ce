//! A line is run, and its reply made.
ghost use Rattle.std.specs.Prelude.{◌≡◌, ◌≢◌, true, Some, None, IfOk};
ghost use Rattle.script_lines.specs.Grammar as grammar;
ghost use Rattle.script_lines.specs.Grammar.{Reopen};
ghost use Rattle.script_lines.specs.LineValue.{line_value};
ghost use Rattle.script_lines.specs.ReplyText.{reply_line};
ghost use Rattle.store_core.specs.State.{IsRunning};
ghost use Rattle.script_runner.specs.Acts.{Acts, Admits};
ghost use Rattle.script_runner.specs.Runner.{ActsWith, IsPlain, IsRunnable, MakesReply, Prints, answer_of, runner_of};
ghost use Rattle.script_runner.specs.Sessions.{Sessions, has_ended, session_of};

use crate::admitting::admit;
use crate::collecting::{begin_collection, step_collection, sweep};
use crate::giving::{abort, begin, commit, finish, push, turn};
use crate::naming::{delete, list};
use crate::sessions::Sessions;
use crate::taking::{count, count_keys, end_read, open_read, read_next};
use actor_parts::{Actor, SegBuf};
use refusals::Refusal;
use script_lines::{Line, Reply, print_reply};
use std::alloc::{AllocError, Global};
use store_core::HasState;

// The reply that a line was done, or that it was refused.
fn print(alloc: Global, answer: &Result<Reply<'_>, Refusal>) -> Result<Vec<u8>, AllocError>
    ensures { IfOk result (λ text. text.items ≡ reply_line (answer_of answer.now)) }
{
    match answer {
        Ok(reply) => print_reply(alloc, reply),
        Err(refusal) => print_reply(alloc, &Reply::Refused { refusal: *refusal }),
    }
}

// Runs a line that was taken, of those whose reply is made then and lends no bytes.
fn act<C: HasState>(
    alloc: Global,
    core: &mut C,
    sessions: &mut Sessions,
    line: &Line<'_>,
    buf: &mut SegBuf,
) -> Result<Reply<'static>, Refusal>
    requires running { IsRunning (C.state core.old) }
    requires plain { IsPlain (line_value line.now) }
    requires runnable { IsRunnable (line_value line.now) }
    requires admitted { Admits (line_value line.now) sessions.old (C.state core.old) }
    ensures acts { Acts C C.state (line_value line.now) (answer_of result)
        (runner_of core.old sessions.old) (runner_of core.new sessions.new) }
    ensures running { IsRunning (C.state core.new) }
{
    match *line {
        Line::Begin(actor) => {
            begin(alloc, core, sessions, actor, buf)?;
            Ok(Reply::Begun { actor })
        }
        Line::Push(actor, digits) => {
            let bytes = push(core, sessions, actor, digits, buf)?;
            Ok(Reply::Pushed { actor, bytes })
        }
        Line::Finish(actor) => {
            let bytes = finish(core, sessions, actor)?;
            Ok(Reply::Finished { actor, bytes })
        }
        Line::Turn(actor) => {
            let turned = turn(core, sessions, actor, buf)?;
            Ok(Reply::Turn { actor, turned })
        }
        Line::Abort(actor) => {
            abort(core, sessions, actor, buf)?;
            Ok(Reply::Aborted { actor })
        }
        Line::Read(actor, name) => {
            let length = open_read(core, actor, name, buf)?;
            Ok(Reply::Reading { actor, length })
        }
        Line::Drop(actor) => {
            end_read(core, actor, buf)?;
            Ok(Reply::Dropped { actor })
        }
        Line::Gc(percent) => {
            let snapshot = begin_collection(core, percent, buf)?;
            Ok(Reply::Collecting { snapshot })
        }
        Line::Step => step_collection(core, buf),
        Line::Sweep => sweep(core, buf),
        Line::Stat => Ok(Reply::Stat {
            holdings: count(core, buf),
        }),
        Line::Unique => count_keys(core, buf),
        Line::Commit(_, _) | Line::Next(_) | Line::Delete(_) | Line::List | Line::Reopen => {
            unreachable!()
        }
    }
}

// Gives the next bytes of a file, and makes the reply.
fn reply_next<C: HasState>(
    alloc: Global,
    core: &mut C,
    actor: Actor,
    buf: &mut SegBuf,
) -> Result<Vec<u8>, AllocError>
    requires running { IsRunning (C.state core.old) }
    requires runs { (C.state core.old).stop ≡ None }
    ensures made { (sessions : Sessions) → ActsWith C C.state (grammar.Next actor)
        (λ reply. Prints (λ text. text.items) result reply) (runner_of core.old sessions) (runner_of core.new sessions) }
    ensures running { IsRunning (C.state core.new) }
{
    match read_next(core, actor, buf) {
        Ok(Some(count)) => {
            let bytes = &buf.bytes()[..count as usize];
            print_reply(alloc, &Reply::Bytes { actor, bytes })
        }
        Ok(None) => print_reply(alloc, &Reply::End { actor }),
        Err(refusal) => print_reply(alloc, &Reply::Refused { refusal }),
    }
}

// Stores a file under a name; the reply is made before.
fn reply_commit<C: HasState>(
    alloc: Global,
    core: &mut C,
    sessions: &mut Sessions,
    actor: Actor,
    name: &[u8],
    buf: &mut SegBuf,
) -> Result<Vec<u8>, AllocError>
    requires running { IsRunning (C.state core.old) }
    requires gave { has_ended (session_of sessions.old actor) ≡ Some true }
    ensures made { ActsWith C C.state (grammar.Commit actor name.now) (λ reply. Prints (λ text. text.items) result reply)
        (runner_of core.old sessions.old) (runner_of core.new sessions.new) }
    ensures running { IsRunning (C.state core.new) }
{
    match commit(alloc, core, sessions, actor, name, buf) {
        Ok(text) => Ok(text),
        Err(refusal) => print_reply(alloc, &Reply::Refused { refusal }),
    }
}

// Deletes a name; the reply is made before.
fn reply_delete<C: HasState>(
    alloc: Global,
    core: &mut C,
    name: &[u8],
    buf: &mut SegBuf,
) -> Result<Vec<u8>, AllocError>
    requires running { IsRunning (C.state core.old) }
    ensures made { (sessions : Sessions) → ActsWith C C.state (grammar.Delete name.now)
        (λ reply. Prints (λ text. text.items) result reply) (runner_of core.old sessions) (runner_of core.new sessions) }
    ensures running { IsRunning (C.state core.new) }
{
    match delete(alloc, core, name, buf) {
        Ok(text) => Ok(text),
        Err(refusal) => print_reply(alloc, &Reply::Refused { refusal }),
    }
}

// Lists the names, and makes the reply.
fn reply_list<C: HasState>(
    alloc: Global,
    core: &mut C,
    buf: &mut SegBuf,
) -> Result<Vec<u8>, AllocError>
    requires running { IsRunning (C.state core.old) }
    requires runs { (C.state core.old).stop ≡ None }
    ensures made { (sessions : Sessions) → ActsWith C C.state grammar.ListNames
        (λ reply. Prints (λ text. text.items) result reply) (runner_of core.old sessions) (runner_of core.new sessions) }
    ensures running { IsRunning (C.state core.new) }
{
    match list(core, buf) {
        Ok(files) => print_reply(alloc, &Reply::Listed { files: &files }),
        Err(refusal) => print_reply(alloc, &Reply::Refused { refusal }),
    }
}

// Runs a line that was taken, and makes the reply then.
fn reply_plain<C: HasState>(
    alloc: Global,
    core: &mut C,
    sessions: &mut Sessions,
    line: &Line<'_>,
    buf: &mut SegBuf,
) -> Result<Vec<u8>, AllocError>
    requires running { IsRunning (C.state core.old) }
    requires plain { IsPlain (line_value line.now) }
    requires runnable { IsRunnable (line_value line.now) }
    requires admitted { Admits (line_value line.now) sessions.old (C.state core.old) }
    ensures made { ActsWith C C.state (line_value line.now) (λ reply. Prints (λ text. text.items) result reply)
        (runner_of core.old sessions.old) (runner_of core.new sessions.new) }
    ensures running { IsRunning (C.state core.new) }
{
    let answer = act(alloc, core, sessions, line, buf);
    print(alloc, &answer)
}

/// Runs a line but `reopen`, and makes its reply, or finds no memory for it.
pub(crate) fn reply_to<C: HasState>(
    alloc: Global,
    core: &mut C,
    sessions: &mut Sessions,
    line: &Line<'_>,
    buf: &mut SegBuf,
) -> Result<Vec<u8>, AllocError>
    requires running { IsRunning (C.state core.old) }
    requires runnable { IsRunnable (line_value line.now) }
    requires other { line_value line.now ≢ Reopen }
    ensures made { MakesReply C C.state (line_value line.now) (λ reply. Prints (λ text. text.items) result reply)
        (runner_of core.old sessions.old) (runner_of core.new sessions.new) }
    ensures running { IsRunning (C.state core.new) }
{
    if let Err(refusal) = admit(core, sessions, line) {
        return print_reply(alloc, &Reply::Refused { refusal });
    }
    match *line {
        Line::Commit(actor, name) => { reply_commit(alloc, core, sessions, actor, name, buf) }
        Line::Next(actor) => reply_next(alloc, core, actor, buf),
        Line::Delete(name) => reply_delete(alloc, core, name, buf),
        Line::List => reply_list(alloc, core, buf),
        _ => reply_plain(alloc, core, sessions, line, buf),
    }
}
