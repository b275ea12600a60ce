//! A visit of the first tree of a walk: a node is opened, and a segment passed unread.
ghost use Rattle.std.specs.Prelude.{◌≡◌, ◌↔◌, ℕ, ◌≤◌, List, [], ◌∷◌, length, Option, None, Ok, IfOk, IfErr, IfSome, OnErr};
ghost use Rattle.dd_disk.specs.Ending.{ending};
ghost use Rattle.disk_format.specs.declared.numbers.TheConstants.{MOST_SEGMENT as LONGEST};
ghost use Rattle.container_meta.specs.Spelling.{HeaderValue};
ghost use Rattle.merkle_file.specs.Tree.{Tree};
ghost use Rattle.store_model.specs.Collisions.{ByteSet};
ghost use Rattle.store_state.specs.Refused.{blames};
ghost use Rattle.read_steps.specs.Visiting.{IsHeldVisit, IsVisitRefusal, VisitsPlaced};
ghost use Rattle.read_steps.specs.Walking.{AsksIndex, HeldAhead, IsIndexed};

use crate::walking::{find_place, open_node};
use container_meta::{Kind, Place, key_of};
use dd_disk::Disk;
use disk_format::Why;
use merkle_file::{Cursor, Want};
use refusals::Refusal;
use segment_index::Index;

/// Visits the first tree of a walk that is still to come, and answers the place that the index has for its key: a node is
/// read and opened, a segment is passed unread. Answers nothing at the end. It takes no memory.
///
/// Refusals, in this order: `DiskRead`; `Damaged` for bytes of the index that break its form; `Missing` where the index has
/// no such key; and at a node `Corrupt` where the bytes that are read have another digest, and `Damaged` where they have it
/// and aren't the node that was named, by its first wrong field. After each the walk goes on where it was.
pub fn visit<D: Disk, X: Index>(
    disk: &mut D,
    index: &mut X,
    cursor: &mut Cursor,
    buf: &mut [u8],
) -> Result<Option<Place>, Refusal>
    requires serves { X.serves index.old (D.view disk.old).size }
    requires room { LONGEST ≤ length buf.old }
    ensures end { (result ≡ Ok None) ↔ (cursor.old ≡ []) }
    ensures visits { IfOk result (λ got. IfSome got (VisitsPlaced (X.places index.old (D.view disk.old).content)
        (D.view disk.old) (D.view disk.new) cursor.old cursor.new)) }
    ensures kept { OnErr result (cursor.new ≡ cursor.old) }
    ensures refused { IfErr result (IsVisitRefusal (X.places index.old (D.view disk.old).content) (X.breaks index.old)
        (D.view disk.old) (D.view disk.new) cursor.old) }
    // Where the disk tells its content, and trees that it holds are to come, whose keys the index has.
    ensures held { (counts : ByteSet) (held : List (Option HeaderValue)) (image : List ℕ) (ts : List (Tree (List ℕ)))
        → IsIndexed counts held (X.places index.old (D.view disk.old).content) (D.view disk.old).content image
        → HeldAhead counts held image cursor.old ts → IsHeldVisit counts held image cursor.new result }
    ensures size { length buf.new ≡ length buf.old }
    ensures asks { AsksIndex (X.places index.old (D.view disk.old).content) (X.places index.new (D.view disk.new).content)
        (X.breaks index.old) (X.breaks index.new) (ending blames result) (D.view disk.old) (D.view disk.new) }
    ensures served { X.serves index.new (D.view disk.new).size }
{
    match cursor.want() {
        Want::Node { digest, .. } => Ok(Some(open_node(disk, index, cursor, &digest, buf)?)),
        Want::Leaf { digest, .. } => {
            let place = find_place(disk, index, &key_of(Kind::Leaf, &digest))?;
            cursor.pass();
            Ok(Some(place))
        }
        Want::End => Ok(None),
    }
}
