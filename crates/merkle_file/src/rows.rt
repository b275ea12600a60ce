//! The unfinished nodes of a tree that is built, one row of children for each level.

ghost use Rattle.std.specs.Prelude.{◌≡◌, ◌+◌, ◌<◌, ◌≤◌, [], ◌∷◌, ◌++◌, IfOk, MatchOption, OnErr, OnOk, length, map, replicate};
ghost use Rattle.std.specs.Prelude.{◌==◌, ◌&&◌, nat_le};
ghost use Rattle.std.specs.List.{list_all};
ghost use Rattle.std.specs.Option.{option_to_list};
ghost use Rattle.merkle_file.specs.Node.{Contents, IsChild};
ghost use Rattle.merkle_file.specs.Tree.{parent};
ghost use Rattle.merkle_file.specs.Steps.{are_empty, close, place, top_of};
ghost use Rattle.merkle_file.specs.Rows.{AreNode, CanClose, CanPlace, CanTake, IsPlacement, IsSettled, items_of};

use crate::node::{Child, Node};
use crate::top::Top;
use disk_format::{MOST_CHILDREN, MOST_LEVEL};
use sha2::{Digest, Sha256};
use std::alloc::{AllocError, Global};
use std::collections::VecDeque;

/// What a node says of this node.
pub(crate) fn parent_of(alloc: Global, node: &Node) -> Result<Child, AllocError>
    ensures { IfOk result (λ c. c ≡ parent node.now) }
{
    let bytes = node.encode(alloc)?;
    Ok(Child {
        digest: Sha256::digest(bytes.as_slice()),
        length: node.length(),
    })
}

/// A row's children, with the child that the row below became.
fn with_carried(
    alloc: Global,
    row: &[Child],
    carried: Option<Child>,
) -> Result<Vec<Child>, AllocError>
    ensures { IfOk result (λ v. v.items ≡ row.now ++ option_to_list carried) }
{
    let mut children = Vec::from_slice(alloc, row)?;
    if let Some(child) = carried {
        children.push(child)?;
    }
    Ok(children)
}

/// The node that a row becomes with one more child.
fn node_over(alloc: Global, row: &[Child], level: u8, child: Child) -> Result<Node, AllocError>
    requires { CanTake level row.now child }
    ensures { IfOk result (λ n. n ≡ record { level = level + 1; children = row.now ++ child ∷ [] }) }
{
    let children = with_carried(alloc, row, Some(child))?;
    Ok(Node::from_children(level + 1, children))
}

/// Where a leaf leads to: which row gets a child more, and which nodes the rows below it become.
#[derive(Drop)]
struct Placement {
    level: usize,
    child: Child,
    nodes: VecDeque<Node>,
}

/// Finds out where a leaf leads to, and takes the memory for the nodes. The rows stay.
fn placement_of(alloc: Global, rows: &[Vec<Child>], leaf: Child) -> Result<Placement, AllocError>
    requires { CanPlace 0 leaf (items_of rows.now) }
    ensures { IfOk result (λ p. IsPlacement leaf (items_of rows.now) p.level p.child p.nodes.items) }
{
    let mut child = leaf;
    let mut nodes = VecDeque::new(alloc);
    for level in 0..rows.len() {
        let row = rows[level].as_slice();
        if row.len() + 1 < MOST_CHILDREN {
            return Ok(Placement {
                level,
                child,
                nodes,
            });
        }
        let node = node_over(alloc, row, level as u8, child)?;
        child = parent_of(alloc, &node)?;
        nodes.push_back(node)?;
    }
    unreachable!()
}

/// Adds a child to the row of a level, and empties the rows below it.
fn settle(rows: &mut [Vec<Child>], level: usize, child: Child) -> Result<(), AllocError>
    requires { level < length rows.old }
    ensures ok { OnOk result (IsSettled level child (items_of rows.old) (items_of rows.new)) }
    ensures err { OnErr result (items_of rows.new ≡ items_of rows.old) }
{
    rows[level].push(child)?;
    clear(&mut rows[..level]);
    Ok(())
}

/// Places a leaf in the lowest row, and each node that is whole thereby in the row above. Memory is taken before
/// anything changes.
pub(crate) fn place_leaf(
    alloc: Global,
    rows: &mut [Vec<Child>],
    finished: &mut VecDeque<Node>,
    leaf: Child,
) -> Result<(), AllocError>
    requires { CanPlace 0 leaf (items_of rows.old) }
    ensures rows { OnOk result (items_of rows.new ≡ (place 0 leaf (items_of rows.old)).rows) }
    ensures nodes { OnOk result (finished.new.items ≡ finished.old.items ++ (place 0 leaf (items_of rows.old)).nodes) }
    ensures err_rows { OnErr result (items_of rows.new ≡ items_of rows.old) }
    ensures err_nodes { OnErr result (finished.new.items ≡ finished.old.items) }
{
    let mut placement = placement_of(alloc, rows, leaf)?;
    finished.reserve(placement.nodes.len())?;
    settle(rows, placement.level, placement.child)?;
    finished.append(&mut placement.nodes).unwrap();
    Ok(())
}

/// Whether there is no child in any of these rows.
fn are_empty(rows: &[Vec<Child>]) -> bool
    ensures { result ≡ list_all (λ row. length row.items == 0) rows.now }
{
    rows.iter().all(|row| row.len() == 0)
}

/// Whether children of a level are the only ones, with nothing in the rows above.
fn is_root(above: &[Vec<Child>], children: &[Child]) -> bool
    ensures { result ≡ (list_all (λ row. length row.items == 0) above.now && nat_le (length children.now) 1) }
{
    are_empty(above) && children.len() <= 1
}

/// Makes a node of a level of these children, if there are any, and gives what its parent says of it.
fn close_row(
    alloc: Global,
    finished: &mut VecDeque<Node>,
    level: u8,
    children: Vec<Child>,
) -> Result<Option<Child>, AllocError>
    requires { AreNode level children.items }
    ensures { IfOk result (λ carried. MatchOption carried
        ((children.items ≡ []) × (finished.new.items ≡ finished.old.items))
        (λ c. let node : Contents = record { level = level; children = children.items } in
        (1 ≤ length children.items) × (c ≡ parent node) × (finished.new.items ≡ finished.old.items ++ node ∷ []))) }
{
    if children.is_empty() {
        return Ok(None);
    }
    let node = Node::from_children(level, children);
    let child = parent_of(alloc, &node)?;
    finished.push_back(node)?;
    Ok(Some(child))
}

/// The root, where there is at most one tree at its level.
fn top_of(level: u8, children: &[Child]) -> Top
    ensures { result ≡ top_of level children.now }
{
    match children.first() {
        None => Top {
            length: 0,
            level: 0,
            digest: Sha256::digest(&[]),
        },
        Some(child) => Top {
            length: child.length,
            level,
            digest: child.digest,
        },
    }
}

/// The root over all rows, and the nodes that they become.
#[derive(Drop)]
pub(crate) struct Finished {
    pub top: Top,
    pub nodes: VecDeque<Node>,
}

/// Makes a node of what is left in each row, from the lowest up, and gives the root. The rows stay.
pub(crate) fn close(alloc: Global, rows: &[Vec<Child>]) -> Result<Finished, AllocError>
    requires { CanClose 0 [] (items_of rows.now) }
    ensures top { IfOk result (λ f. f.top ≡ (close 0 [] (items_of rows.now)).top) }
    ensures nodes { IfOk result (λ f. f.nodes.items ≡ (close 0 [] (items_of rows.now)).nodes) }
{
    let mut carried = None;
    let mut nodes = VecDeque::new(alloc);
    for level in 0..rows.len() {
        let children = with_carried(alloc, &rows[level], carried)?;
        let (_, above) = rows.split_at(level + 1);
        if is_root(above, &children) {
            let top = top_of(level as u8, &children);
            return Ok(Finished { top, nodes });
        }
        carried = close_row(alloc, &mut nodes, level as u8 + 1, children)?;
    }
    unreachable!()
}

/// Empties each row.
pub(crate) fn clear(rows: &mut [Vec<Child>])
    ensures { items_of rows.new ≡ replicate (length rows.old) [] }
{
    for row in rows.iter_mut() {
        row.clear();
    }
}

/// A row for each level, with no child in any.
pub(crate) fn empty_rows(alloc: Global) -> Result<Vec<Vec<Child>>, AllocError>
    ensures { IfOk result (λ rows. items_of rows.items ≡ replicate MOST_LEVEL []) }
{
    let mut rows = Vec::new(alloc);
    for _ in 0..MOST_LEVEL {
        rows.push(Vec::new(alloc))?;
    }
    Ok(rows)
}
