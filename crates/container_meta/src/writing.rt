//! Headers and data as bytes.

ghost use Rattle.std.specs.Prelude.{◌≡◌, ◌+◌, ◌*◌, ◌-◌, ◌≤◌, ◌∷◌, ◌++◌, length, take};
ghost use Rattle.std.specs.Int.{w16, w32, w64, to_be_bytes};
ghost use Rattle.base_model.specs.Bytes.{zeros};
ghost use Rattle.sha2.specs.Sha256.{sha256};
ghost use Rattle.container_meta.specs.Spelling.{HeaderValue, entry_spelling, entries_spelling, fields_spelling, front_spelling};

use crate::MAGIC;
use crate::entry::Entry;
use crate::kind::{Kind, byte_of};
use crate::segment::digest_of;
use disk_format::{CONTAINER_GATE, DATA_BYTES, MOST_ENTRIES};
use sha2::{Digest, Sha256};

/// Writes bytes at a place, after what stands before it.
fn put(out: &mut [u8], at: usize, from: &[u8])
    requires { at + length from.now ≤ length out.old }
    ensures { take (at + length from.now) out.new ≡ take at out.old ++ from.now }
{
    out[at..at + from.len()].copy_from_slice(from);
}

/// Writes so many zeros at a place, after what stands before it.
fn put_zeros(out: &mut [u8], at: usize, count: usize)
    requires { at + count ≤ length out.old }
    ensures { take (at + count) out.new ≡ take at out.old ++ zeros count }
{
    out[at..at + count].fill(0);
}

/// Writes the 48 bytes of an entry at a place.
fn put_entry(out: &mut [u8], at: usize, entry: &Entry)
    requires { at + 48 ≤ length out.old }
    ensures { take (at + 48) out.new ≡ take at out.old ++ entry_spelling entry.now }
{
    put(out, at, &entry.digest);
    put(out, at + 32, &entry.offset.to_be_bytes());
    put(out, at + 36, &entry.length.to_be_bytes());
    put(out, at + 40, &[entry.level]);
    put_zeros(out, at + 41, 7);
}

/// Writes the entries, and zeros after them.
pub(crate) fn put_entries(out: &mut [u8], entries: &[Entry])
    requires room { length out.old ≡ 49152 }
    requires few { length entries.now ≤ MOST_ENTRIES }
    ensures { out.new ≡ entries_spelling entries.now ++ zeros (49152 - 48 * length entries.now) }
{
    for (i, entry) in entries.iter().enumerate() {
        put_entry(out, 48 * i, entry);
    }
    put_zeros(out, 48 * entries.len(), out.len() - 48 * entries.len());
}

/// What a header says beside its entries.
#[derive(Clone, Copy)]
pub(crate) struct Fields {
    pub id: u64,
    pub kind: Kind,
    pub count: u16,
    pub data_length: u32,
}

/// Writes the gate and the fields before the digest.
fn put_fields(out: &mut [u8], fields: &Fields)
    requires { length out.old ≡ 512 }
    ensures { take 24 out.new ≡ CONTAINER_GATE ∷ fields_spelling fields.now.id fields.now.kind fields.now.count fields.now.data_length }
{
    put(out, 0, &[CONTAINER_GATE]);
    put(out, 1, &MAGIC);
    put(out, 8, &fields.id.to_be_bytes());
    put(out, 16, &[byte_of(fields.kind), 0]);
    put(out, 18, &fields.count.to_be_bytes());
    put(out, 20, &fields.data_length.to_be_bytes());
}

/// Writes the bytes before the entries, which stand spelled in `entries`, and gives the digest that is among them.
pub(crate) fn put_front(out: &mut [u8], fields: &Fields, entries: &[u8]) -> [u8; 32]
    requires { length out.old ≡ 512 }
    ensures front { out.new ≡ front_spelling
        (fields_spelling fields.now.id fields.now.kind fields.now.count fields.now.data_length) entries.now }
    ensures digest { result ≡ sha256
        (fields_spelling fields.now.id fields.now.kind fields.now.count fields.now.data_length ++ entries.now) }
{
    put_fields(out, fields);
    let mut hasher = Sha256::new();
    hasher.update(&out[1..24]);
    hasher.update(entries);
    let digest = hasher.finalize();
    put(out, 24, &digest);
    put_zeros(out, 56, 456);
    digest
}

/// Writes the data of the segments, and zeros after it.
pub(crate) fn put_data(out: &mut [u8], bytes: &[u8])
    requires room { length out.old ≡ DATA_BYTES }
    requires fits { length bytes.now ≤ DATA_BYTES }
    ensures { out.new ≡ bytes.now ++ zeros (DATA_BYTES - length bytes.now) }
{
    put(out, 0, bytes);
    put_zeros(out, bytes.len(), out.len() - bytes.len());
}
