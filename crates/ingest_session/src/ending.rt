//! The end of a file, and its root.
ghost use Rattle.std.specs.Prelude.{◌≡◌, Bool, true, false, IfSome, IfNone, OnErr, OnOk};
ghost use Rattle.store_model.specs.Trees.{root_of};

use crate::line::line_up;
use crate::session::Session;
use merkle_file::tree_of_segments;
use namespace::Root;
use refusals::{PartKind, Refusal};
use std::alloc::AllocError;

impl Session {
    ghost use Rattle.ingest_session.specs.State.{is_last, rest_of};
    ghost use Rattle.ingest_session.specs.History.{History, HasHistory};
    ghost use Rattle.ingest_session.specs.Calls.{IsFinishAnswer, IsEnding, IsUnready, ready_in};

    /// Whether the builder has all segments of the queue.
    fn has_all(&self) -> bool
        ensures { result ≡ is_last true (rest_of self.now) }
    {
        match &self.ahead {
            Some(_) => self.queue.len() == 1,
            None => self.queue.len() == 0,
        }
    }

    /// What is in hand becomes the last segment. Where the builder has all segments, the tree is whole. Where there is no memory, nothing
    /// changes.
    fn end(&mut self) -> Result<(), AllocError>
        requires ongoing { self.old.ended ≡ false }
        ensures ok { OnOk result (IsEnding self.old self.new) }
        ensures err { OnErr result (self.new ≡ self.old) }
    {
        if self.cutter.finish() {
            self.queue.push(self.cutter.segment());
            self.cutter.next();
            self.ended = true;
            return Ok(());
        }
        if !self.has_all() {
            self.ended = true;
            return Ok(());
        }
        let top = self.builder.finish()?;
        self.top = Some(top);
        self.ended = true;
        if self.ahead.is_some() {
            return Ok(());
        }
        line_up(&mut self.line, &mut self.builder);
        Ok(())
    }

    /// Ends the bytes of the file: what is in hand is the last segment. It refuses after it was called, and for want of
    /// memory, and changes nothing then.
    pub fn finish(&mut self) -> Result<(), Refusal>
        ensures refusal { IsFinishAnswer self.old result }
        ensures err { OnErr result (self.new ≡ self.old) }
        ensures ok { OnOk result (IsEnding self.old self.new) }
        ensures history { OnOk result ((h : History) → HasHistory self.old h → HasHistory self.new h) }
    {
        if self.ended {
            return Err(Refusal::WrongPart {
                part: PartKind::Finished,
            });
        }
        self.end()?;
        self.sound();
        Ok(())
    }

    /// The root of the file, where all bytes were given and nothing is due.
    pub fn ready(&self) -> Option<Root>
        ensures ready { result ≡ ready_in self.now }
        ensures none { IfNone result (IsUnready self.now) }
        ensures root { (h : History) → HasHistory self.now h → IfSome result (λ root. root ≡ root_of h.given) }
    {
        tree_of_segments();
        if !self.ended || !self.is_done() {
            return None;
        }
        match &self.top {
            Some(top) => Some(Root {
                length: self.count,
                level: top.level,
                digest: top.digest,
            }),
            None => None,
        }
    }
}
