//! Segments and nodes that go to their place in the tree.
ghost use Rattle.std.specs.Prelude.{◌≡◌, ◌<◌, ◌≤◌, true, false, IsSome, OnErr, OnOk, length, None};

use crate::line::{LONG_LINE, line_up};
use crate::session::Session;
use actor_parts::node_seg;
use merkle_file::Child;
use std::alloc::AllocError;

impl Session {
    ghost use Rattle.ingest_session.specs.State.{is_last, rest_of, turn_node};
    ghost use Rattle.ingest_session.specs.Told.{placed_node, placed_front};
    ghost use Rattle.ingest_session.specs.Moving.{IsAdvanced, IsSpelledOut};

    /// Makes the segment of the first node in line. Where there is no memory, nothing changes.
    pub(crate) fn spell(&mut self) -> Result<(), AllocError>
        ensures ok { OnOk result (IsSpelledOut self.old self.new) }
        ensures err { OnErr result (self.new ≡ self.old) }
    {
        if let Some(node) = self.line.first() {
            if self.spelled.is_none() {
                self.spelled = Some(node_seg(self.alloc, node)?);
            }
        }
        Ok(())
    }

    /// Gives the builder the first segment of the queue. Where there is no memory, nothing changes.
    pub(crate) fn advance(&mut self) -> Result<(), AllocError>
        requires some { 0 < length self.old.queue }
        requires short { length self.old.line < LONG_LINE }
        requires none { self.old.ahead ≡ None }
        ensures ok { OnOk result (IsAdvanced self.old self.new) }
        ensures err { OnErr result (self.new ≡ self.old) }
    {
        let seg = self.queue.first(self.alloc)?;
        let child = Child {
            digest: seg.digest(),
            length: seg.bytes().len() as u64,
        };
        self.builder.push(child)?;
        self.ahead = Some(seg);
        Ok(())
    }

    /// Puts the first node in line in its place.
    pub(crate) fn place_node(&mut self)
        requires node { IsSome (turn_node self.old) }
        requires waits { self.old.waits ≡ false }
        ensures placed { self.new ≡ placed_node self.old }
    {
        self.line.pop();
        self.spelled = None;
    }

    /// Puts the first segment of the queue in its place. `more` is 1 in a call that may still be refused.
    pub(crate) fn place_front(&mut self, more: usize)
        requires more { more ≤ 1 }
        requires ahead { IsSome self.old.ahead }
        requires waits { self.old.waits ≡ false }
        requires closed { is_last self.old.ended (rest_of self.old) ≡ true → IsSome self.old.top }
        ensures placed { self.new ≡ placed_front more self.old }
    {
        self.queue.pop();
        self.ahead = None;
        line_up(&mut self.line, &mut self.builder);
        self.unseen += more;
    }
}
