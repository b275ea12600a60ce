//! Which step is due, and for what.
ghost use Rattle.container_meta.specs.declared.kind.Kind.TheVariants.{Leaf, Tree};
ghost use Rattle.std.specs.Prelude.{◌≡◌, ◌≤◌, ◌↔◌, IsTrue, true, false, length, option_map, if◌then◌else◌};

use crate::due::{Due, child_kind};
use crate::line::LONG_LINE;
use crate::session::Session;
use actor_parts::MOST_TOGETHER;
use container_meta::{Kind, OpenContainer, Seg, key_of};
use merkle_file::Node;
use std::slice::from_ref;

impl Session {
    ghost use Rattle.std.specs.List.{AllByRecursion};
    ghost use Rattle.container_meta.specs.Segments.{has_key, has_segment};
    ghost use Rattle.actor_parts.specs.Offers.{AreStepContents, IsOffer};
    ghost use Rattle.ingest_session.specs.State.{HasItem, turn_node};
    ghost use Rattle.ingest_session.specs.Due.{HasTurn, child_is_open, due_in, end_due, gathered, item_due, item_is_held, item_is_there};
    ghost use Rattle.ingest_session.specs.Due.{item_kind, offered_in, puts_aside, turn_in};
    ghost use Rattle.ingest_session.specs.Moving.{IsOffered};
    ghost use Rattle.ingest_session.specs.Told.{IsSettled};

    /// What a seal of a kind is to seal: of data all that were set aside, of nodes the open container.
    pub fn filled(&self, kind: Kind) -> &[OpenContainer]
        ensures value { result.now ≡ offered_in self.now kind }
        // Where the seal is due, they may be offered together.
        ensures offer { IsSettled self.now → due_in self.now ≡ Due.Seal kind → IsOffer (offered_in self.now kind) }
        ensures kind { AllByRecursion (λ c. c.kind ≡ kind) (offered_in self.now kind) }
        ensures right { AreStepContents (offered_in self.now kind) }
    {
        match kind {
            Kind::Leaf => self.aside.containers(),
            Kind::Tree => from_ref(&self.nodes),
        }
    }

    /// Whether a segment with this key, of a kind, is still to be sealed: of those that were set aside one look-up tells.
    fn lies_open(&self, kind: Kind, key: &[u8; 33]) -> bool
        ensures { result ≡ has_key (gathered self.now kind) key.now }
    {
        match kind {
            Kind::Leaf => self.aside.has(key) || self.leaves.has(key),
            Kind::Tree => self.nodes.has(key),
        }
    }

    /// Whether this segment, of a kind, is still to be sealed, and not only one of its digest.
    fn holds_open(&self, kind: Kind, seg: &Seg) -> bool
        ensures { result ≡ has_segment (gathered self.now kind) seg.now.segment }
    {
        match kind {
            Kind::Leaf => self.aside.holds(seg) || self.leaves.holds(seg),
            Kind::Tree => self.nodes.holds(seg),
        }
    }

    /// Whether a child of the node is still to be sealed.
    fn child_is_open(&self, node: &Node) -> bool
        ensures { result ≡ child_is_open self.now node.now }
    {
        let kind = child_kind(node.level());
        node.children()
            .iter()
            .any(|child| self.lies_open(kind, &key_of(kind, &child.digest)))
    }

    /// Whether the first node in line is due, where no item waits: then it has its turn, else the first segment of the queue.
    pub(crate) fn node_is_due(&self) -> bool
        ensures { (if result then Tree else Leaf) ≡ turn_in self.now }
    {
        match self.line.first() {
            None => false,
            Some(node) => {
                self.line.len() >= LONG_LINE
                    || (self.ended && self.queue.len() == 0)
                    || !self.child_is_open(node)
            }
        }
    }

    /// The node whose turn it is.
    pub(crate) fn turn_node(&self) -> Option<&Node>
        ensures { option_map (λ n. n.now) result ≡ turn_node self.now }
    {
        match self.turn {
            Kind::Leaf => None,
            Kind::Tree => self.line.first(),
        }
    }

    /// The segment whose turn it is: where a claim is due, the one that is to be claimed.
    pub fn offered(&self) -> &Seg
        requires { HasItem (turn_node self.now) self.now.spelled self.now.ahead }
        ensures { IsOffered self.now result.now }
    {
        match self.turn_node() {
            Some(_) => match &self.spelled {
                Some(seg) => seg,
                None => unreachable!(),
            },
            None => match &self.ahead {
                Some(seg) => seg,
                None => unreachable!(),
            },
        }
    }

    fn item_kind(&self) -> Kind
        ensures { result ≡ item_kind (turn_node self.now) }
    {
        match self.turn_node() {
            Some(_) => Kind::Tree,
            None => Kind::Leaf,
        }
    }

    fn end_due(&self) -> Due
        ensures { result ≡ end_due self.now }
    {
        if !self.ended {
            return Due::Nothing;
        }
        if self.aside.len() != 0 || self.leaves.len() != 0 {
            return Due::Seal(Kind::Leaf);
        }
        if self.nodes.len() != 0 {
            return Due::Seal(Kind::Tree);
        }
        Due::Nothing
    }

    /// A claim of the item whose turn it is; where another of its digest is still to be sealed, first a seal of that one.
    fn claim_due(&self) -> Due
        requires { HasItem (turn_node self.now) self.now.spelled self.now.ahead }
        ensures { result ≡ (if item_is_held self.now (turn_node self.now) then Due.Seal (item_kind (turn_node self.now)) else Due.Claim) }
    {
        let kind = self.item_kind();
        if self.lies_open(kind, &self.offered().key()) {
            Due::Seal(kind)
        } else {
            Due::Claim
        }
    }

    fn item_due(&self) -> Due
        requires { HasTurn (turn_node self.now) self.now.queue → HasItem (turn_node self.now) self.now.spelled self.now.ahead }
        ensures { result ≡ item_due self.now (turn_node self.now) }
    {
        match self.turn_node() {
            Some(node) => {
                if self.child_is_open(node) {
                    Due::Seal(child_kind(node.level()))
                } else {
                    self.claim_due()
                }
            }
            None => {
                if self.queue.len() > 0 {
                    self.claim_due()
                } else {
                    self.end_due()
                }
            }
        }
    }

    /// The step that is due, where every item that needs none is in its place.
    pub(crate) fn due_now(&self) -> Due
        requires turn { self.now.waits ≡ false → self.now.turn ≡ turn_in self.now }
        requires item { HasTurn (turn_node self.now) self.now.queue → HasItem (turn_node self.now) self.now.spelled self.now.ahead }
        ensures { result ≡ due_in self.now }
    {
        if self.waits {
            Due::Seal(self.item_kind())
        } else {
            self.item_due()
        }
    }

    /// Whether no step is due, where the file has ended.
    pub(crate) fn is_done(&self) -> bool
        requires ended { self.now.ended ≡ true }
        ensures { IsTrue result ↔ (due_in self.now ≡ Due.Nothing) }
    {
        if self.waits || self.line.len() > 0 || self.queue.len() > 0 {
            return false;
        }
        matches!(self.end_due(), Due::Nothing)
    }

    /// Whether the open container of data is to be set aside: a seal of data is due, it holds a segment, and there is a place.
    pub(crate) fn puts_aside(&self) -> bool
        requires turn { self.now.waits ≡ false → self.now.turn ≡ turn_in self.now }
        requires item { HasTurn (turn_node self.now) self.now.queue → HasItem (turn_node self.now) self.now.spelled self.now.ahead }
        ensures { result ≡ puts_aside self.now }
    {
        matches!(self.due_now(), Due::Seal(Kind::Leaf))
            && self.leaves.len() != 0
            && self.aside.len() < MOST_TOGETHER
    }

    /// Whether the item whose turn it is needs no step.
    pub(crate) fn item_is_there(&self) -> bool
        requires { HasItem (turn_node self.now) self.now.spelled self.now.ahead }
        ensures { result ≡ (item_is_there self.now (turn_node self.now)) }
    {
        let seg = self.offered();
        match self.turn_node() {
            Some(node) => !self.child_is_open(node) && self.holds_open(Kind::Tree, seg),
            None => self.holds_open(Kind::Leaf, seg),
        }
    }
}
