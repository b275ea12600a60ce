//! The file of a name, and a walk down its tree that begins.
ghost use Rattle.std.specs.Prelude.{◌≡◌, IfOk, IfErr, List, ℕ};
ghost use Rattle.store_model.specs.Files.{Files};
ghost use Rattle.store_model.specs.Image.{Store, names_of};
ghost use Rattle.store_model.specs.Standing.{IsStoreOf};
ghost use Rattle.read_steps.specs.Opening.{HasRoot, Begins, IsNameRefusal, IsFileAhead, top_of as top_of_root};

use merkle_file::{Cursor, Top};
use namespace::{NameFault, Names, Root};
use refusals::Refusal;
use std::alloc::Global;

// The root that a name has.
fn root_in(names: &Names, name: &[u8]) -> Result<Root, Refusal>
    ensures root { IfOk result (HasRoot names.now name.now) }
    ensures refused { IfErr result (IsNameRefusal names.now name.now) }
{
    match names.get(name) {
        Ok(root) => Ok(root),
        Err(NameFault::BadName) => Err(Refusal::BadName),
        Err(_) => Err(Refusal::NoFile),
    }
}

pub(crate) fn top_of(root: &Root) -> Top
    ensures { result ≡ top_of_root root.now }
{
    Top {
        length: root.length,
        level: root.level,
        digest: root.digest,
    }
}

/// The root that a name has, and a walk down the tree of its file that begins.
///
/// Refusals: `BadName` where the bytes are no name, `NoFile` where no file has it, and `Memory`.
pub fn begin_walk(alloc: Global, names: &Names, name: &[u8]) -> Result<(Root, Cursor), Refusal>
    ensures begins { IfOk result (λ r. Begins names.now name.now r.0 r.1) }
    ensures refused { IfErr result (IsNameRefusal names.now name.now) }
    // Where a store stands for files.
    ensures file { IfOk result (λ r. (store : Store) (files : Files) (image : List ℕ) → names.now ≡ names_of store
        → IsStoreOf store files image → IsFileAhead store files image name.now r.0 r.1) }
{
    let root = root_in(names, name)?;
    let cursor = Cursor::new(alloc, &top_of(&root))?;
    Ok((root, cursor))
}
