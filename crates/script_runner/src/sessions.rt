//! The sessions of the actors that give files.
ghost use Rattle.std.specs.Prelude.{◌≡◌, ◌<◌, None, IfOk, length, replicate};
ghost use Rattle.actor_parts.specs.declared.actor.TheConstants.{ACTORS};
ghost use Rattle.script_runner.specs.Sessions.{IsOfLines, has_ended, session_of, with_session};

use actor_parts::{ACTORS, Actor};
use ingest_session::Session;
use std::alloc::{AllocError, Global};
use std::marker::Model;

/// A session for each actor, where it gives a file. Contracts see it as the list of them.
#[derive(Drop)]
pub struct Sessions {
    sessions: Vec<Option<Session>>,
}

impl Model for Sessions {
    ghost use Rattle.std.specs.Prelude.{List, Option};
    ghost use Rattle.ingest_session.specs.State.{SessionState};
    ghost use Rattle.script_runner.specs.Sessions.{AreOfLines};

    ghost Value = { List (Option SessionState) };

    ghost view = { λ s. s.sessions.items };

    ghost invariant = { λ s. AreOfLines s.sessions.items };
}

impl Sessions {
    /// No actor gives a file. It fails for want of memory alone.
    pub fn new(alloc: Global) -> Result<Sessions, AllocError>
        ensures { IfOk result (λ s. s ≡ replicate ACTORS None) }
    {
        Ok(Sessions {
            sessions: no_sessions(alloc)?,
        })
    }

    /// Whether an actor has given all of its file, if it gives one.
    pub(crate) fn has_ended(&self, actor: Actor) -> Option<bool>
        ensures { result ≡ has_ended (session_of self.now actor) }
    {
        match &self.sessions[actor.number() as usize] {
            Some(session) => Some(session.has_ended()),
            None => None,
        }
    }

    /// Takes the session of an actor, which leaves it none.
    pub(crate) fn take(&mut self, actor: Actor) -> Option<Session>
        ensures taken { result ≡ session_of self.old actor }
        ensures left { self.new ≡ with_session self.old actor None }
        ensures of_lines { IsOfLines result }
        ensures there { actor < length self.old }
    {
        std::mem::replace(&mut self.sessions[actor.number() as usize], None)
    }

    /// Gives an actor a session, or none. What it had is let go.
    pub(crate) fn set(&mut self, actor: Actor, session: Option<Session>)
        requires { IsOfLines session }
        ensures sessions { self.new ≡ with_session self.old actor session }
        ensures there { actor < length self.old }
    {
        self.sessions[actor.number() as usize] = session;
    }
}

fn no_sessions(alloc: Global) -> Result<Vec<Option<Session>>, AllocError>
    ensures { IfOk result (λ s. s.items ≡ replicate ACTORS None) }
{
    let mut sessions = Vec::new(alloc);
    for _ in 0..ACTORS {
        sessions.push(None)?;
    }
    Ok(sessions)
}
