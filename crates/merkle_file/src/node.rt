use crate::fault::NodeFault;
use crate::reading::{ANY_NODE, check, count_of, read_children};
use crate::writing::{push_entries, push_head};
use std::alloc::{AllocError, Global};
use std::marker::Model;

/// A SHA-256 digest.
pub type Hash = [u8; 32];

/// What a node says of a child.
#[derive(Clone, Copy)]
pub struct Child {
    /// The SHA-256 of the segment, or of the node as `Node::encode` spells it.
    pub digest: Hash,
    /// How many bytes of the file lie below it, from 1 to `disk_format::MOST_SEGMENT` of a segment, and to
    /// `disk_format::MOST_FILE` of a node.
    pub length: u64,
}

/// A node of a tree (docs/FORMAT.md, "Nodes"): its level from 1 to `disk_format::MOST_LEVEL`, and 1 to
/// `disk_format::MOST_CHILDREN` children.
#[derive(Drop)]
pub struct Node {
    level: u8,
    children: Vec<Child>,
}

impl Model for Node {
    ghost use Rattle.merkle_file.specs.Node.{Contents, IsNode};

    ghost Value = { Contents };

    ghost view = { λ n. record { level = n.level; children = n.children.items } };

    ghost invariant = { λ n. IsNode (record { level = n.level; children = n.children.items }) };
}

impl Node {
    ghost use Rattle.std.specs.Prelude.{◌≡◌, IfOk};
    ghost use Rattle.merkle_file.specs.Node.{Contents, IsNode, spelling, total};
    ghost use Rattle.merkle_file.specs.Reading.{AnswersFault, IsNodeUnlessMemory, any_node, first_fault};

    /// A node of a level over these children, which keep the rules of a node. It fails for want of memory alone.
    pub fn new(alloc: Global, level: u8, children: &[Child]) -> Result<Node, AllocError>
        requires { IsNode (record { level = level; children = children.now }) }
        ensures { IfOk result (λ n. n ≡ record { level = level; children = children.now }) }
    {
        let children = Vec::from_slice(alloc, children)?;
        Ok(Node::from_children(level, children))
    }

    /// The same, where the children are there already.
    pub(crate) fn from_children(level: u8, children: Vec<Child>) -> Node
        requires { IsNode (record { level = level; children = children.items }) }
        ensures { result ≡ record { level = level; children = children.items } }
    {
        Node { level, children }
    }

    /// Its level. The children of a node of level 1 are segments.
    pub fn level(&self) -> u8
        ensures value { result ≡ self.now.level }
        ensures right { IsNode self.now }
    {
        self.level
    }

    /// Its children, in order.
    pub fn children(&self) -> &[Child]
        ensures value { result.now ≡ self.now.children }
        ensures right { IsNode self.now }
    {
        &self.children
    }

    /// How many bytes of the file lie below it.
    pub fn length(&self) -> u64
        ensures { result ≡ total self.now.children }
    {
        self.children.iter().map(|child| child.length).sum()
    }

    /// The one spelling of this node, `4 + 40 * k` bytes for k children. It fails for want of memory alone.
    #[tactic(auto, unfolding(crate::specs::Node::spelling))]
    pub fn encode(&self, alloc: Global) -> Result<Vec<u8>, AllocError>
        ensures { IfOk result (λ bytes. bytes.items ≡ spelling self.now) }
    {
        let mut bytes = Vec::with_capacity(alloc, 4 + 40 * self.children.len())?;
        push_head(&mut bytes, self.level, self.children.len() as u16)?;
        push_entries(&mut bytes, &self.children)?;
        Ok(bytes)
    }

    /// The node that the bytes spell, all of the bytes. Any other bytes are refused by the first field, in
    /// order of offset, that breaks a rule; bytes of a node are refused for want of memory alone.
    pub fn decode(alloc: Global, bytes: &[u8]) -> Result<Node, NodeFault>
        ensures found { IfOk result (λ n. IsNode n × (bytes.now ≡ spelling n)) }
        ensures only { (n : Contents) → IsNode n → bytes.now ≡ spelling n → IsNodeUnlessMemory result n }
        ensures fault { AnswersFault result (first_fault any_node bytes.now) }
    {
        if let Err(fault) = check(bytes, &ANY_NODE) {
            return Err(NodeFault::Field {
                offset: fault.offset,
                got: fault.got,
            });
        }
        let (_, entries) = bytes.split_at(4);
        match read_children(alloc, entries, count_of(bytes)) {
            Ok(children) => Ok(Node {
                level: bytes[0],
                children,
            }),
            Err(_) => Err(NodeFault::Memory),
        }
    }
}
