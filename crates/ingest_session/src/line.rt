//! The finished nodes of a session that wait for their place.
ghost use Rattle.std.specs.Prelude.{◌≡◌, ◌+◌, ◌<◌, ◌≤◌, [], ◌∷◌, ◌++◌, IfOk, drop, length, option_map};
ghost use Rattle.ingest_session.specs.Finished.{first_of, without_nodes};

use merkle_file::{Node, TreeBuilder};
use std::alloc::{AllocError, Global};
use std::collections::VecDeque;
use std::marker::Model;

/// Where so many nodes stand in line, the first of them is due.
pub const LONG_LINE: usize = 64;
/// How many nodes stand in line at most: a segment has its turn where fewer than 64 do, and it may finish one of each level.
pub const MOST_LINE: usize = 69;

/// Nodes in the order in which they were finished. It takes the memory for its places when it is made, and that of a node
/// comes with it.
#[derive(Drop)]
pub struct Line {
    nodes: VecDeque<Node>,
}

impl Model for Line {
    ghost use Rattle.std.specs.Prelude.{List};
    ghost use Rattle.merkle_file.specs.Node.{Contents};

    ghost Value = { List Contents };

    ghost view = { λ l. l.nodes.items };

    ghost use Rattle.std.specs.Prelude.{◌≤◌};
    ghost use Rattle.std.specs.VecDeque.{deque_capacity};
    ghost use Rattle.ingest_session.specs.declared.line.TheConstants.{MOST_LINE};

    ghost invariant = { λ l. MOST_LINE ≤ deque_capacity l.nodes };
}

impl Line {
    /// No nodes. It fails for want of memory alone.
    pub fn new(alloc: Global) -> Result<Line, AllocError>
        ensures { IfOk result (λ l. l ≡ []) }
    {
        Ok(Line {
            nodes: VecDeque::with_capacity(alloc, MOST_LINE)?,
        })
    }

    /// How many nodes stand in line.
    pub fn len(&self) -> usize
        ensures { result ≡ length self.now }
    {
        self.nodes.len()
    }

    /// The first node.
    pub fn first(&self) -> Option<&Node>
        ensures { option_map (λ n. n.now) result ≡ first_of self.now }
    {
        self.nodes.front()
    }

    /// Adds a node at the end. It takes no memory.
    pub fn push(&mut self, node: Node)
        requires room { length self.old < MOST_LINE }
        ensures { self.new ≡ self.old ++ node ∷ [] }
    {
        self.nodes.push_back_reserved(node);
    }

    /// Takes the first node away.
    pub fn pop(&mut self)
        requires { 0 < length self.old }
        ensures { self.new ≡ drop 1 self.old }
    {
        let _ = self.nodes.pop_front();
    }
}

/// The nodes that a builder finished stand in line. It takes no memory.
pub(crate) fn line_up(line: &mut Line, builder: &mut TreeBuilder)
    requires { length line.old + length builder.old.finished ≤ MOST_LINE }
    ensures line { line.new ≡ line.old ++ builder.old.finished }
    ensures builder { builder.new ≡ without_nodes builder.old }
{
    while let Some(node) = builder.take() {
        line.push(node);
    }
}
