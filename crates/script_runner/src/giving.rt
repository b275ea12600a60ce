//! Lines by which an actor gives a file.
ghost use Rattle.std.specs.Prelude.{◌≡◌, ◌*◌, ◌<◌, ◌≤◌, false, true, length, vec_len, vec_capacity, Some, IsSome, IfOk, OnOk, OnErr, IfErr, option_map};
ghost use Rattle.actor_parts.specs.StepValue as asked;
ghost use Rattle.script_lines.specs.Grammar.{IsHex, pushed_bytes};
ghost use Rattle.script_lines.specs.ReplyValue.{Committed};
ghost use Rattle.store_core.specs.State.{IsRunning};
ghost use Rattle.script_runner.specs.Acts.{Aborts, Begins, Commits, Finishes, GivesRoot, IsText, Pushes, Puts, RefusesCommit, RefusesPut, RefusesStep, Settles, Turns, turned};
ghost use Rattle.script_runner.specs.Sessions.{has_ended, session_of};
ghost use Rattle.session_turns.specs.Turns.{TurnsStopped, session_at};
ghost use Rattle.script_runner.specs.Runner.{runner_of};

use crate::sessions::Sessions;
use actor_parts::{Actor, Answer, SegBuf, Step};
use ingest_session::{QUEUE, Session};
use namespace::Root;
use refusals::Refusal;
use script_lines::{Reply, Turned, decode_into, print_reply};
use session_turns::{MOST_PIECE, feed, make_turn, make_turns};
use std::alloc::Global;
use store_core::HasState;

/// Begins a file.
pub(crate) fn begin<C: HasState>(
    alloc: Global,
    core: &mut C,
    sessions: &mut Sessions,
    actor: Actor,
    buf: &mut SegBuf,
) -> Result<(), Refusal>
    requires { IsRunning (C.state core.old) }
    ensures begins { Begins C C.state actor result sessions.old sessions.new core.old core.new }
    ensures running { IsRunning (C.state core.new) }
{
    let session = Session::new(alloc, QUEUE)?;
    core.make_step(actor, Step::Begin, buf)?;
    sessions.set(actor, Some(session));
    Ok(())
}

/// Gives bytes of the file, as the digits of a line, and says how many were given in all.
pub(crate) fn push<C: HasState>(
    core: &mut C,
    sessions: &mut Sessions,
    actor: Actor,
    digits: &[u8],
    buf: &mut SegBuf,
) -> Result<u64, Refusal>
    requires running { IsRunning (C.state core.old) }
    requires gives { has_ended (session_of sessions.old actor) ≡ Some false }
    requires hex { IsHex digits.now }
    requires few { length digits.now ≤ 2 * MOST_PIECE }
    ensures pushes { Pushes C C.state actor (pushed_bytes digits.now) result (runner_of core.old sessions.old)
        (runner_of core.new sessions.new) }
    ensures running { IsRunning (C.state core.new) }
{
    let mut bytes = [0u8; MOST_PIECE];
    let count = decode_into(digits, &mut bytes);
    let Some(mut session) = sessions.take(actor) else {
        unreachable!()
    };
    let fed = feed(core, actor, &mut session, &bytes[..count], buf);
    let given = session.count();
    sessions.set(actor, Some(session));
    fed?;
    Ok(given)
}

/// Ends the file, and says how many bytes it has.
pub(crate) fn finish<C: HasState>(
    core: &C,
    sessions: &mut Sessions,
    actor: Actor,
) -> Result<u64, Refusal>
    requires { has_ended (session_of sessions.old actor) ≡ Some false }
    ensures finishes { Finishes C actor result sessions.old sessions.new core.now core.now }
{
    let Some(mut session) = sessions.take(actor) else {
        unreachable!()
    };
    let ended = session.finish();
    let given = session.count();
    sessions.set(actor, Some(session));
    ended?;
    Ok(given)
}

// What an answer to a turn is in a reply.
fn turned(answer: &Option<Answer>) -> Option<Turned>
    ensures { result ≡ turned answer.now }
{
    match answer {
        None => Some(Turned::Idle),
        Some(Answer::Held) => Some(Turned::Held),
        Some(Answer::Absent) => Some(Turned::Absent),
        Some(Answer::Sealed { id, .. }) => Some(Turned::Sealed { id: *id }),
        Some(_) => None,
    }
}

/// Makes a turn, and says what it did.
pub(crate) fn turn<C: HasState>(
    core: &mut C,
    sessions: &mut Sessions,
    actor: Actor,
    buf: &mut SegBuf,
) -> Result<Turned, Refusal>
    requires running { IsRunning (C.state core.old) }
    requires gives { IsSome (session_of sessions.old actor) }
    ensures turns { Turns C C.state actor result sessions.old sessions.new core.old core.new }
    ensures running { IsRunning (C.state core.new) }
{
    let Some(mut session) = sessions.take(actor) else {
        unreachable!()
    };
    let made = make_turn(core, actor, &mut session, buf);
    sessions.set(actor, Some(session));
    match turned(&made?) {
        Some(told) => Ok(told),
        None => unreachable!(),
    }
}

// Makes all turns that are due, and gives the root of the file.
fn settle<C: HasState>(
    core: &mut C,
    session: &mut Session,
    actor: Actor,
    buf: &mut SegBuf,
) -> Result<Root, Refusal>
    requires running { IsRunning (C.state core.old) }
    requires ended { session.old.ended ≡ true }
    ensures settles { IfOk result (λ root. Settles C C.state actor root session.old session.new core.old core.new) }
    ensures refused { IfErr result (λ refusal. TurnsStopped C C.state actor refusal session.old session.new core.old core.new) }
    ensures most { session.new.most ≡ session.old.most }
    ensures running { IsRunning (C.state core.new) }
{
    make_turns(core, actor, session, buf)?;
    match session.ready() {
        Some(root) => Ok(root),
        None => unreachable!(),
    }
}

// Gives a name the root.
fn put_root<C: HasState>(
    core: &mut C,
    actor: Actor,
    name: &[u8],
    root: &Root,
    buf: &mut SegBuf,
) -> Result<(), Refusal>
    requires running { IsRunning (C.state core.old) }
    ensures gives { OnOk result (GivesRoot actor name.now root.now (C.state core.old) (C.state core.new)) }
    ensures refused { IfErr result (λ refusal.
        RefusesStep actor (asked.Commit name.now root.now) refusal (C.state core.old) (C.state core.new)) }
    ensures running { IsRunning (C.state core.new) }
{
    core.make_step(actor, Step::Commit { name, root }, buf)?;
    Ok(())
}

// Makes all turns that are due, and gives a name the root. The reply's memory is taken before.
fn put<C: HasState>(
    alloc: Global,
    core: &mut C,
    session: &mut Session,
    actor: Actor,
    name: &[u8],
    buf: &mut SegBuf,
) -> Result<Vec<u8>, Refusal>
    requires running { IsRunning (C.state core.old) }
    requires ended { session.old.ended ≡ true }
    ensures puts { IfOk result (λ text. IsText (λ sequence. Committed actor sequence)
        (λ sequence. Puts C C.state actor name.now sequence session.old core.old core.new) text.items) }
    ensures refused { IfErr result (λ refusal. RefusesPut C C.state actor name.now refusal (session_at session.old core.old)
        (session_at session.new core.new)) }
    ensures most { session.new.most ≡ session.old.most }
    ensures running { IsRunning (C.state core.new) }
{
    let root = settle(core, session, actor, buf)?;
    let sequence = core.last_sequence().saturating_add(1);
    let reply = print_reply(alloc, &Reply::Committed { actor, sequence })?;
    put_root(core, actor, name, &root, buf)?;
    Ok(reply)
}

/// Stores the file under a name, and gives the reply.
pub(crate) fn commit<C: HasState>(
    alloc: Global,
    core: &mut C,
    sessions: &mut Sessions,
    actor: Actor,
    name: &[u8],
    buf: &mut SegBuf,
) -> Result<Vec<u8>, Refusal>
    requires running { IsRunning (C.state core.old) }
    requires gave { has_ended (session_of sessions.old actor) ≡ Some true }
    ensures commits { IfOk result (λ text. IsText (λ sequence. Committed actor sequence)
        (λ sequence. Commits C C.state actor name.now sequence (runner_of core.old sessions.old) (runner_of core.new sessions.new))
        text.items) }
    ensures refused { IfErr result (λ refusal. RefusesCommit C C.state actor name.now refusal (runner_of core.old sessions.old)
        (runner_of core.new sessions.new)) }
    ensures running { IsRunning (C.state core.new) }
{
    let Some(mut session) = sessions.take(actor) else {
        unreachable!()
    };
    match put(alloc, core, &mut session, actor, name, buf) {
        Ok(text) => Ok(text),
        Err(refusal) => {
            sessions.set(actor, Some(session));
            Err(refusal)
        }
    }
}

/// Gives up the file.
pub(crate) fn abort<C: HasState>(
    core: &mut C,
    sessions: &mut Sessions,
    actor: Actor,
    buf: &mut SegBuf,
) -> Result<(), Refusal>
    requires { IsRunning (C.state core.old) }
    ensures aborts { Aborts C C.state actor result sessions.old sessions.new core.old core.new }
    ensures running { IsRunning (C.state core.new) }
{
    core.make_step(actor, Step::Abort, buf)?;
    sessions.set(actor, None);
    Ok(())
}
