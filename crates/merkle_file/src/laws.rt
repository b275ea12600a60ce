//! Laws of nodes and trees, for proofs that stand on them. Their functions do nothing.

ghost use Rattle.merkle_file.specs.Node.{SpellingsTellNodes};
ghost use Rattle.merkle_file.specs.Tree.{BytesAreSegments, GroupsAreTaken, LeavesAreSegments, NoneIsEmpty, OneIsLeaf, SegmentsAlike};
ghost use Rattle.merkle_file.specs.Walk.{TreesAreRight};
ghost use Rattle.merkle_file.specs.Roots.{NodesAreRight, RootsAreRight};
ghost use Rattle.merkle_file.specs.Order.{ChildrenComeFirst, NodesComeInOrder};

/// Two nodes with one spelling are one node.
pub fn spellings_of_nodes()
    ensures { SpellingsTellNodes }
{}

/// The tree over segments has the root and the nodes of the tree over their digests and lengths, which is
/// what a builder is pushed. Its leaves are the segments in order, its nodes keep the rules of nodes, and its root
/// says what the root of a file has to say.
pub fn tree_of_segments()
    ensures alike { SegmentsAlike }
    ensures leaves { LeavesAreSegments }
    ensures bytes { BytesAreSegments }
    ensures none { NoneIsEmpty }
    ensures one { OneIsLeaf }
    ensures right { TreesAreRight }
    ensures nodes { NodesAreRight }
    ensures root { RootsAreRight }
{}

/// Where nodes end by the number of their children, `disk_format::MOST_CHILDREN` are taken for each, as long as there are
/// so many.
pub fn groups_of_a_level()
    ensures { GroupsAreTaken }
{}

/// The nodes that a builder has finished are the first nodes of the tree, whatever is pushed next, as long as the tree fits
/// its form; and each node of a tree comes after its children.
pub fn nodes_in_order()
    ensures finished { NodesComeInOrder }
    ensures children { ChildrenComeFirst }
{}
