//! The trees that are still to come on a walk, the next one last.

ghost use Rattle.std.specs.Prelude.{◌≡◌, ◌+◌, ◌-◌, ◌*◌, ◌≤◌, ◌<◌, ◌∷◌, ◌++◌, IfOk, IsOk, OnErr, OnOk, drop, length, map, reverse, take};
ghost use Rattle.std.specs.Prelude.{vec_capacity};
ghost use Rattle.merkle_file.specs.Node.{Contents, IsNode, spelling};
ghost use Rattle.merkle_file.specs.Reading.{children_in, contents_in, found_fault};
ghost use Rattle.merkle_file.specs.Walk.{HasRoom, IsNextNamed, IsNodeNext, SpellsNext, asked_for, below, fault_for, opened};

use crate::fault::FieldFault;
use crate::node::Child;
use crate::reading::{Asked, check, count_of, read_child};
use crate::top::Top;
use disk_format::{MOST_CHILDREN, MOST_FILE, MOST_LEVEL};

/// The most trees that are to come at once: the last of six nodes' children, and all but one of the
/// others'.
pub(crate) const STACK: usize = 1 + MOST_LEVEL as usize * (MOST_CHILDREN - 1);

/// What is asked of the node that a parent or the root names.
fn asked_for(top: &Top) -> Asked
    ensures { result ≡ asked_for top.now }
{
    Asked {
        lowest: top.level,
        greatest: top.level.min(MOST_LEVEL),
        least: top.length,
        most: top.length.min(MOST_FILE),
    }
}

/// The tree that a node of a level names by an entry.
fn tree_below(level: u8, child: &Child) -> Top
    requires { 1 ≤ level }
    ensures { result ≡ below level child.now }
{
    let digest = child.digest;
    Top {
        length: child.length,
        level: level - 1,
        digest,
    }
}

/// Puts the trees that so many entries of a node name on the stack, the first of them last.
fn push_children(stack: &mut Vec<Top>, entries: &[u8], count: usize, level: u8)
    requires some { 1 ≤ level }
    requires count { 40 * count ≤ length entries.now }
    requires room { length stack.old.items + count ≤ vec_capacity stack.old }
    ensures items { stack.new.items ≡ stack.old.items ++ reverse (map (below level) (children_in count entries.now)) }
    ensures capacity { vec_capacity stack.new ≡ vec_capacity stack.old }
{
    let mut index = count;
    while index > 0 {
        index -= 1;
        let (_, rest) = entries.split_at(40 * index);
        stack.push_reserved(tree_below(level, &read_child(rest)));
    }
}

/// The tree that comes next.
fn next_of(stack: &[Top]) -> Top
    requires { 0 < length stack.now }
    ensures { reverse stack.now ≡ result ∷ reverse (take (length stack.now - 1) stack.now) }
{
    stack[stack.len() - 1]
}

/// Puts the trees below the node that is next in its place, if the bytes are that node.
pub(crate) fn open_next(stack: &mut Vec<Top>, bytes: &[u8]) -> Result<(), FieldFault>
    requires node { IsNodeNext (reverse stack.old.items) }
    requires room { HasRoom (reverse stack.old.items) }
    requires capacity { STACK ≤ vec_capacity stack.old }
    ensures fault { found_fault result ≡ fault_for (reverse stack.old.items) bytes.now }
    ensures found { OnOk result (SpellsNext (reverse stack.old.items) bytes.now) }
    ensures ok { OnOk result (reverse stack.new.items ≡ opened (contents_in bytes.now) ++ drop 1 (reverse stack.old.items)) }
    ensures only { (n : Contents) → IsNode n → IsNextNamed (reverse stack.old.items) n → bytes.now ≡ spelling n
        → IsOk result × (contents_in bytes.now ≡ n) }
    ensures err { OnErr result (stack.new.items ≡ stack.old.items) }
    ensures room { HasRoom (reverse stack.new.items) }
    ensures capacity { STACK ≤ vec_capacity stack.new }
{
    let top = next_of(stack);
    check(bytes, &asked_for(&top))?;
    let _ = stack.pop();
    let (_, entries) = bytes.split_at(4);
    push_children(stack, entries, count_of(bytes) as usize, top.level);
    Ok(())
}
