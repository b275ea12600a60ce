//! Laws of what a disk image stands for (docs/MODEL.md, 'Images').
ghost use Rattle.std.specs.Prelude.{◌≡◌, ◌+◌, ◌≤◌, ℕ, Bool, List, length};
ghost use Rattle.store_model.specs.Collisions.{ByteSet, IsIn, HasNoCollisions, Stands};
ghost use Rattle.store_model.specs.Files.{Files};
ghost use Rattle.store_model.specs.Image.{Store, Encodes};
ghost use Rattle.store_model.specs.Slots.{free_slots, last_id};
ghost use Rattle.store_model.specs.Standing.{IsStoreOf, StandsFor};
ghost use Rattle.store_model.specs.Steps.{AnyKey, KeepsCopies};
ghost use Rattle.store_model.specs.Together.{
  Placed,
  with_some,
  with_all,
  with_all_sealed,
  AreFirstFree,
  IdsRise,
  CanPlace,
  MayPlace,
  AreLeftSo,
  IsLeft,
  IsThere,
};

/// That an image holds one store at most, and stands for one map of files and one last sequence number at most.
pub fn an_image_holds_one_store()
    ensures store { (image : List ℕ) (s t : Store) → Encodes image s → Encodes image t → s ≡ t }
    ensures files { (s t : Store) (m n : Files) (image : List ℕ) → IsStoreOf s m image → IsStoreOf t n image → m ≡ n }
    ensures last { (m n : Files) (i j : ℕ) (image : List ℕ) → StandsFor m i image → StandsFor n j image → (m ≡ n) × (i ≡ j) }
{}

/// That an image in which containers of data were sealed together, each under an id above all before it, is the store with some
/// of them, whichever, of the same files, and keeps all copies; and with all of them where all stand. No two byte lists of its
/// data have one digest.
pub fn sealed_together_keeps_files()
    ensures some { (among : ByteSet) (ps : List Placed) (store : Store) (files : Files) (image new : List ℕ)
        → HasNoCollisions (IsIn among) → MayPlace (IsIn among) ps → CanPlace (last_id store.held) ps store
        → Stands (IsIn among) store files image → AreLeftSo IsLeft ps image new
        → (marks : List Bool) × Stands (IsIn among) (with_some marks ps store) files new
        × KeepsCopies AnyKey store image (with_some marks ps store) new }
    ensures all { (among : ByteSet) (ps : List Placed) (store : Store) (files : Files) (image new : List ℕ)
        → HasNoCollisions (IsIn among) → MayPlace (IsIn among) ps → CanPlace (last_id store.held) ps store
        → Stands (IsIn among) store files image → AreLeftSo IsThere ps image new → Stands (IsIn among) (with_all ps store) files new }
    // The first closed slots serve, where there are as many, and all of them in these make what sealing one after the other makes.
    ensures place { (ps : List Placed) (store : Store) → AreFirstFree ps store → IdsRise (last_id store.held) ps
        → length ps ≤ free_slots store.held
        → CanPlace (last_id store.held) ps store × (with_all ps store ≡ with_all_sealed ps store) }
    // Whichever of them stand, so many slots stay closed.
    ensures room { (spare : ℕ) (marks : List Bool) (ps : List Placed) (store : Store) → spare + length ps ≤ free_slots store.held
        → spare ≤ free_slots (with_some marks ps store).held }
{}
