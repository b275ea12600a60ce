//! Turns: a claim or a seal that is due, made.
ghost use Rattle.std.specs.Prelude.{◌≡◌, ◌≢◌, ◌+◌, ◌≤◌, ◌<◌, length, None, IfOk, OnErr, OnOk};
ghost use Rattle.disk_format.specs.declared.numbers.TheConstants.{MOST_FILE};
ghost use Rattle.ingest_session.specs.Due.{due_in};
ghost use Rattle.ingest_session.specs.Settling.{most_waiting, seen};
ghost use Rattle.ingest_session.specs.Work.{to_do};
ghost use Rattle.ingest_session.specs.Told.{IsAnswerFor, IsSettled};
ghost use Rattle.session_turns.specs.Turning.{AskedFor, FeedsBy, MakesRoomBy, TakesTurnBy, TakesTurnsBy, does, maker_of, session_at};

use crate::maker::MakesSteps;
use actor_parts::{Actor, Answer, SegBuf, Step};
use disk_format::LEAST_SEGMENT;
use ingest_session::{Due, Session};
use refusals::Refusal;

/// How many bytes are given to a session at once, at most: so few that a session where room was made takes them all.
pub const MOST_PIECE: usize = 2 * LEAST_SEGMENT;

/// Asks for the step that is due.
fn ask<C: MakesSteps>(
    core: &mut C,
    actor: Actor,
    session: &Session,
    due: Due,
    buf: &mut SegBuf,
) -> Result<Answer, Refusal>
    requires running { C.runs core.old }
    requires settled { IsSettled session.now }
    requires due { due ≡ due_in session.now }
    requires some { due ≢ Due.Nothing }
    ensures asks { AskedFor (does (maker_of C.runs C.makes) actor core.old core.new) due session.now result }
    ensures fits { IfOk result (λ answer. IsAnswerFor answer session.now) }
    ensures running { C.runs core.new }
{
    match due {
        Due::Claim => {
            let seg = session.offered();
            core.make(actor, Step::Claim { seg }, buf)
        }
        Due::Seal(kind) => {
            let filled = session.filled(kind);
            core.make(actor, Step::Seal { filled }, buf)
        }
        Due::Nothing => unreachable!(),
    }
}

/// Makes the step that is due, and tells the session the answer, which is given; none where nothing is due.
pub fn make_turn<C: MakesSteps>(
    core: &mut C,
    actor: Actor,
    session: &mut Session,
    buf: &mut SegBuf,
) -> Result<Option<Answer>, Refusal>
    requires { C.runs core.old }
    ensures turn { TakesTurnBy (maker_of C.runs C.makes) actor result session.old session.new core.old core.new }
    ensures work { IfOk result (λ made. made ≢ None → to_do session.new < to_do session.old) }
    ensures none { IfOk result (λ made. made ≡ None → seen session.new ≡ 0) }
    ensures ended { session.new.ended ≡ session.old.ended }
    ensures count { session.new.count ≡ session.old.count }
    ensures most { session.new.most ≡ session.old.most }
    ensures running { C.runs core.new }
{
    let due = session.due()?;
    if let Due::Nothing = due {
        return Ok(None);
    }
    let answer = ask(core, actor, session, due, buf)?;
    session.told(&answer);
    Ok(Some(answer))
}

/// Makes turns while more segments wait than the session may have wait before a piece is given, and none when no more do.
pub fn make_room<C: MakesSteps>(
    core: &mut C,
    actor: Actor,
    session: &mut Session,
    buf: &mut SegBuf,
) -> Result<(), Refusal>
    requires { C.runs core.old }
    ensures turns { MakesRoomBy (maker_of C.runs C.makes) actor result session.old session.new core.old core.new }
    ensures room { OnOk result (seen session.new ≤ most_waiting session.new) }
    ensures ended { session.new.ended ≡ session.old.ended }
    ensures count { session.new.count ≡ session.old.count }
    ensures most { session.new.most ≡ session.old.most }
    ensures running { C.runs core.new }
{
    while session.queued() > session.most_waiting() {
        if make_turn(core, actor, session, buf)?.is_none() {
            return Ok(());
        }
    }
    Ok(())
}

/// Makes all turns that are due.
pub fn make_turns<C: MakesSteps>(
    core: &mut C,
    actor: Actor,
    session: &mut Session,
    buf: &mut SegBuf,
) -> Result<(), Refusal>
    requires { C.runs core.old }
    ensures turns { TakesTurnsBy (maker_of C.runs C.makes) actor result session.old session.new core.old core.new }
    ensures done { OnOk result (due_in session.new ≡ Due.Nothing) }
    ensures ended { session.new.ended ≡ session.old.ended }
    ensures count { session.new.count ≡ session.old.count }
    ensures most { session.new.most ≡ session.old.most }
    ensures running { C.runs core.new }
{
    while make_turn(core, actor, session, buf)?.is_some() {}
    Ok(())
}

/// Gives a session bytes of the file, at most `MOST_PIECE`: turns are made until few segments wait, and then it takes all of
/// them. Where a turn is refused, or the file would be too long, none of them was taken.
pub fn feed<C: MakesSteps>(
    core: &mut C,
    actor: Actor,
    session: &mut Session,
    bytes: &[u8],
    buf: &mut SegBuf,
) -> Result<(), Refusal>
    requires running { C.runs core.old }
    requires few { length bytes.now ≤ MOST_PIECE }
    ensures feeds { FeedsBy (maker_of C.runs C.makes) actor result bytes.now (session_at session.old core.old)
        (session_at session.new core.new) }
    ensures ended { session.new.ended ≡ session.old.ended }
    ensures count { OnOk result (session.new.count ≡ session.old.count + length bytes.now) }
    ensures few { OnOk result (session.new.count ≤ MOST_FILE) }
    ensures kept { OnErr result (session.new.count ≡ session.old.count) }
    ensures most { session.new.most ≡ session.old.most }
    ensures running { C.runs core.new }
{
    make_room(core, actor, session, buf)?;
    session.push(bytes)?;
    Ok(())
}
