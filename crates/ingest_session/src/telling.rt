//! What the store answered to the step that was due.
ghost use Rattle.std.specs.Prelude.{◌≡◌, ◌<◌, ◌≤◌, false, length, None, IsSome, IfSome, if◌then◌else◌};
ghost use Rattle.container_meta.specs.Segments.{CanAdd, has_room};
ghost use Rattle.ingest_session.specs.Filling.{with_segment};

use crate::due::Due;
use crate::session::Session;
use actor_parts::Answer;
use container_meta::{Fit, Kind, OpenContainer, Seg};

/// Adds a segment to a container, where it has room.
fn add_to(filled: &mut OpenContainer, seg: &Option<Seg>) -> Fit
    requires some { IsSome seg.now }
    requires can { IfSome seg.now (CanAdd filled.old) }
    ensures which { IfSome seg.now (λ s. result ≡ (if has_room filled.old (length s.segment.bytes) then Fit.Added else Fit.NoRoom)) }
    ensures added { result ≡ Fit.Added → IfSome seg.now (λ s. filled.new ≡ with_segment filled.old s.segment) }
    ensures no_room { result ≡ Fit.NoRoom → filled.new ≡ filled.old }
{
    match seg {
        Some(seg) => filled.try_add(seg),
        None => unreachable!(),
    }
}

impl Session {
    ghost use Rattle.ingest_session.specs.State.{HasItem, IsClosed, turn_node};
    ghost use Rattle.container_meta.specs.declared.kind.Kind.TheVariants.{Tree};
    ghost use Rattle.ingest_session.specs.Due.{due_in, item_is_open, offered_in};
    ghost use Rattle.ingest_session.specs.History.{History, HasHistory, answered};
    ghost use Rattle.ingest_session.specs.Work.{to_do};
    ghost use Rattle.ingest_session.specs.Told.{IsAnswerFor, IsSettled, absent_item, emptied, placed_item, resumed, sealed_by, told_by};

    /// Puts the item whose turn it is in its place. `more` is 1 in a call that may still be refused.
    fn place(&mut self, more: usize)
        requires more { more ≤ 1 }
        requires item { HasItem (turn_node self.old) self.old.spelled self.old.ahead }
        requires closed { IsClosed self.old }
        requires waits { self.old.waits ≡ false }
        ensures placed { self.new ≡ placed_item more (turn_node self.old) self.old }
    {
        match self.turn_node() {
            Some(_) => self.place_node(),
            None => self.place_front(more),
        }
    }

    fn add_node(&mut self, more: usize)
        requires node { IsSome (turn_node self.old) }
        requires item { HasItem (turn_node self.old) self.old.spelled self.old.ahead }
        requires waits { self.old.waits ≡ false }
        requires new { item_is_open self.old (turn_node self.old) ≡ false }
        requires closed { IsClosed self.old }
        ensures told { self.new ≡ absent_item more self.old }
    {
        match add_to(&mut self.nodes, &self.spelled) {
            Fit::Added => self.place_node(),
            Fit::NoRoom => self.waits = true,
        }
    }

    fn add_front(&mut self, more: usize)
        requires more { more ≤ 1 }
        requires node { turn_node self.old ≡ None }
        requires item { HasItem (turn_node self.old) self.old.spelled self.old.ahead }
        requires waits { self.old.waits ≡ false }
        requires new { item_is_open self.old (turn_node self.old) ≡ false }
        requires closed { IsClosed self.old }
        ensures told { self.new ≡ absent_item more self.old }
    {
        match add_to(&mut self.leaves, &self.ahead) {
            Fit::Added => self.place_front(more),
            Fit::NoRoom => self.waits = true,
        }
    }

    /// Puts the item whose turn it is into its container and in its place; where there is no room it waits. `more` is 1 in a call
    /// that may still be refused.
    pub(crate) fn add(&mut self, more: usize)
        requires more { more ≤ 1 }
        requires item { HasItem (turn_node self.old) self.old.spelled self.old.ahead }
        requires waits { self.old.waits ≡ false }
        requires new { item_is_open self.old (turn_node self.old) ≡ false }
        requires closed { IsClosed self.old }
        ensures told { self.new ≡ absent_item more self.old }
    {
        match self.turn_node() {
            Some(_) => self.add_node(more),
            None => self.add_front(more),
        }
    }

    /// Empties the open container of nodes, which was sealed: no item waits for it any more.
    fn empty(&mut self)
        ensures emptied { self.new ≡ record (emptied self.old) { waits = false } }
    {
        self.waits = false;
        self.nodes.clear();
    }

    /// The open container of nodes was sealed: it is empty, and a node that waited for it is added.
    fn seal_nodes(&mut self)
        requires due { due_in self.old ≡ Due.Seal Tree }
        ensures told { self.new ≡ resumed 0 (emptied self.old) }
    {
        let waits = self.waits;
        self.empty();
        if waits {
            self.add(0);
        }
    }

    /// So many containers of a kind, the first of those that were offered, were sealed.
    fn seal(&mut self, kind: Kind, count: usize)
        requires due { due_in self.old ≡ Due.Seal kind }
        requires few { count ≤ length (offered_in self.old kind) }
        ensures told { self.new ≡ sealed_by count (Due.Seal kind) self.old }
    {
        match kind {
            Kind::Leaf => self.aside.remove_first(count),
            Kind::Tree => self.seal_nodes(),
        }
    }

    fn take_answer(&mut self, answer: &Answer)
        requires settled { IsSettled self.old }
        requires asked { self.old.unseen ≡ 0 }
        requires answer { IsAnswerFor answer.now self.old }
        ensures told { self.new ≡ told_by answer.now self.old }
    {
        match answer {
            Answer::Held => self.place(0),
            Answer::Absent => self.add(0),
            Answer::Sealed { count, .. } => {
                if let Due::Seal(kind) = self.due_now() {
                    self.seal(kind, *count);
                }
            }
            _ => unreachable!(),
        }
    }

    /// Takes the answer to the step that was due: `Held` or `Absent` to a claim, `Sealed` to a seal, with how many of those that were
    /// offered. It takes no memory.
    pub fn told(&mut self, answer: &Answer)
        requires settled { IsSettled self.old }
        requires asked { self.old.unseen ≡ 0 }
        requires answer { IsAnswerFor answer.now self.old }
        ensures told { self.new ≡ told_by answer.now self.old }
        ensures history { (h : History) → HasHistory self.old h → HasHistory self.new (answered answer.now self.old h) }
        ensures work { to_do self.new < to_do self.old }
    {
        self.sound();
        self.take_answer(answer);
        self.sound();
    }
}
