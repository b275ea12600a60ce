use crate::node::{Child, Node};
use crate::rows::{clear, close, empty_rows, place_leaf};
use crate::top::Top;
use disk_format::MOST_LEVEL;
use std::alloc::{AllocError, Global};
use std::collections::VecDeque;
use std::marker::Model;

/// Builds the tree over the segments of a file as they come (docs/FORMAT.md, "Nodes"), and gives its nodes, children
/// before parents.
/// It keeps less than one node's children for each level, the nodes that were not taken, and the number of segments.
///
/// A call that finds no memory leaves it as it was.
#[derive(Drop)]
pub struct TreeBuilder {
    alloc: Global,
    rows: Vec<Vec<Child>>,
    finished: VecDeque<Node>,
    leaves: usize,
}

impl Model for TreeBuilder {
    ghost use Rattle.merkle_file.specs.Building.{IsProgress, Progress};
    ghost use Rattle.merkle_file.specs.Rows.{items_of};

    ghost Value = { Progress };

    ghost view = { λ b. record { rows = items_of b.rows.items; finished = b.finished.items; leaves = b.leaves } };

    ghost invariant = { λ b. IsProgress (record { rows = items_of b.rows.items; finished = b.finished.items; leaves = b.leaves }) };
}

impl TreeBuilder {
    ghost use Rattle.std.specs.Prelude.{◌≡◌, ◌≤◌, ◌+◌, [], ◌∷◌, ◌++◌, List, IfNone, IfOk, OnErr, OnOk, length, replicate};
    ghost use Rattle.std.specs.Option.{option_to_list};
    ghost use Rattle.merkle_file.specs.declared.node.Child.{Child};
    ghost use Rattle.merkle_file.specs.Node.{Contents};
    ghost use Rattle.merkle_file.specs.Tree.{itself, nodes_of, root_of, tree_of};
    ghost use Rattle.merkle_file.specs.Building.{Holds, IsProgress, MayPush, built_form, levels_left, total_of};

    /// A builder that was pushed nothing. It fails for want of memory alone.
    pub fn new(alloc: Global) -> Result<TreeBuilder, AllocError>
        ensures { IfOk result (λ b. Holds b [] []) }
    {
        Ok(TreeBuilder {
            alloc,
            rows: empty_rows(alloc)?,
            finished: VecDeque::new(alloc),
            leaves: 0,
        })
    }

    /// Adds a segment at the end: its digest, and its length from 1 to `disk_format::MOST_SEGMENT`. A tree has at most
    /// 2^29 segments and `disk_format::MOST_FILE` bytes. Each node that is whole thereby is finished, from the lowest
    /// up. It fails for want of memory alone, and changes nothing then.
    pub fn push(&mut self, child: Child) -> Result<(), AllocError>
        requires { MayPush self.old child }
        ensures pushed { OnOk result ((pushed : List Child) (taken : List Contents) →
            Holds self.old pushed taken → Holds self.new (pushed ++ child ∷ []) taken) }
        ensures count { OnOk result (self.new.leaves ≡ self.old.leaves + 1) }
        ensures length { OnOk result (total_of self.new.rows ≡ total_of self.old.rows + child.length) }
        ensures few { IsProgress self.new }
        // At most one node of each level is finished, or would be by an end right after.
        ensures added { OnOk result (length self.new.finished + levels_left self.new.rows ≤ length self.old.finished + MOST_LEVEL) }
        ensures err { OnErr result (self.new ≡ self.old) }
    {
        place_leaf(self.alloc, &mut self.rows, &mut self.finished, child)?;
        self.leaves += 1;
        Ok(())
    }

    /// Takes the first finished node that was not taken, if there is one.
    pub fn take(&mut self) -> Option<Node>
        ensures first { self.old.finished ≡ option_to_list result ++ self.new.finished }
        ensures none { IfNone result (self.old.finished ≡ []) }
        ensures rows { self.new.rows ≡ self.old.rows }
        ensures leaves { self.new.leaves ≡ self.old.leaves }
        ensures taken { (pushed : List Child) (taken : List Contents) →
            Holds self.old pushed taken → Holds self.new pushed (taken ++ option_to_list result) }
    {
        self.finished.pop_front()
    }

    /// Finishes the nodes that are not whole, and gives the root of the tree over all that was pushed: of nothing, the
    /// root of an empty file. The nodes that were not taken can still be taken; what is pushed next begins another
    /// tree. It fails for want of memory alone, and changes nothing then.
    pub fn finish(&mut self) -> Result<Top, AllocError>
        ensures top { IfOk result (λ top. (pushed : List Child) (taken : List Contents) →
            Holds self.old pushed taken → top ≡ root_of itself (tree_of (built_form self.old) itself pushed)) }
        ensures nodes { OnOk result ((pushed : List Child) (taken : List Contents) →
            Holds self.old pushed taken → taken ++ self.new.finished ≡ nodes_of itself (tree_of (built_form self.old) itself pushed)) }
        ensures rows { OnOk result (self.new.rows ≡ replicate MOST_LEVEL []) }
        ensures leaves { OnOk result (self.new.leaves ≡ 0) }
        // At most one node of each level is finished, from the lowest one on that has a child.
        ensures added { OnOk result (length self.new.finished ≤ length self.old.finished + levels_left self.old.rows) }
        ensures err { OnErr result (self.new ≡ self.old) }
    {
        let mut closed = close(self.alloc, &self.rows)?;
        self.finished.append(&mut closed.nodes)?;
        clear(&mut self.rows);
        self.leaves = 0;
        Ok(closed.top)
    }
}
