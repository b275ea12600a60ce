//! Headers from bytes.

ghost use Rattle.std.specs.Prelude.{◌≡◌, ℕ, ◌+◌, ◌*◌, ◌-◌, ◌^◌, ◌<◌, ◌≤◌, [], length, vec_capacity, IfOk, Ok};
ghost use Rattle.std.specs.Int.{w32};
ghost use Rattle.base_model.specs.Checks.{checked, passes};
ghost use Rattle.container_meta.specs.Format.{entry_place};
ghost use Rattle.disk_format.specs.declared.numbers.TheConstants.{HEADER_BYTES};
ghost use Rattle.base_model.specs.Bytes.{range};
ghost use Rattle.base_model.specs.Numbers.{number_at};
ghost use Rattle.container_meta.specs.declared.fault.MetaFault.TheVariants.{Field};
ghost use Rattle.container_meta.specs.Spelling.{HeaderValue, IsSpelled, view, with_entries, header_digest, bytes_of};
ghost use Rattle.container_meta.specs.Reading.{Gives, filled, decoded, count_at, count_in, ReachEnd, end_of, kind_at as kind_in, digest_checks};
ghost use Rattle.container_meta.specs.Reading.{field_checks, next_read, entries_at, header_at, is_end};
ghost use Rattle.container_meta.specs.Reading.{zeros_in_front as zeros_before, zeros_end as end_of_zeros};

use crate::MAGIC;
use crate::container::push_entry;
use crate::entry::{Entry, Header, Meta, stands_in};
use crate::fault::MetaFault;
use crate::kind::{Kind, kind_at, takes_length, takes_level};
use base_model::{digest_at, part, seven_at, u16_at, u32_at, u64_at};
use disk_format::{CONTAINER_GATE, DATA_BYTES, LAST_ID, MOST_ENTRIES};
use sha2::{Digest, Sha256};
use std::alloc::Global;

/// How many zeros come before the first byte that is none.
fn zeros_in_front(bytes: &[u8]) -> usize
    ensures { result ≡ zeros_before bytes.now }
{
    for (i, byte) in bytes.iter().enumerate() {
        if *byte != 0 {
            return i;
        }
    }
    bytes.len()
}

#[tactic(auto, unfolding(crate::specs::Reading::zeros_end))]
fn zeros_end(bytes: &[u8], from: usize, count: usize) -> usize
    requires { from + count ≤ length bytes.now }
    ensures value { result ≡ end_of_zeros from count bytes.now }
    ensures within { result ≤ from + count }
{
    from + zeros_in_front(part(bytes, from, count))
}

/// The count of entries, after the checks without which the digest can't be taken.
fn checked_count(bytes: &[u8]) -> Result<u16, MetaFault>
    requires { entry_place 0 ≤ length bytes.now }
    ensures value { result ≡ count_in bytes.now }
    ensures few { IfOk result (λ count. count ≤ MOST_ENTRIES) }
{
    if bytes[0] != CONTAINER_GATE {
        return Err(MetaFault::Gate(bytes[0]));
    }
    if part(bytes, 1, 7) != MAGIC.as_slice() {
        return Err(MetaFault::Magic);
    }
    let count = u16_at(bytes, 18);
    if !(1..=MOST_ENTRIES).contains(&usize::from(count)) {
        return Err(MetaFault::Field {
            offset: 18,
            got: u64::from(count),
        });
    }
    Ok(count)
}

/// How many bytes of a slot its header takes, by the first 512 of them: these, and 48 for each entry, where the gate is open, and the
/// magic and the count of entries are right. Of others no more than 512 are looked at.
pub fn header_end(bytes: &[u8]) -> usize
    requires { entry_place 0 ≤ length bytes.now }
    ensures end { result ≡ end_of (count_in bytes.now) }
    ensures before_data { result ≤ HEADER_BYTES }
{
    match checked_count(bytes) {
        Ok(count) => 512 + 48 * usize::from(count),
        Err(_) => 512,
    }
}

fn check_digest(bytes: &[u8], count: u16) -> Result<(), MetaFault>
    requires length { entry_place count ≤ length bytes.now }
    requires count { count ≡ count_at bytes.now }
    ensures { result ≡ passes (digest_checks bytes.now) }
{
    let mut hasher = Sha256::new();
    hasher.update(part(bytes, 1, 23));
    hasher.update(part(bytes, 512, 48 * usize::from(count)));
    let got = hasher.finalize();
    let want = digest_at(bytes, 24);
    if want != got {
        return Err(MetaFault::Digest { want, got });
    }
    Ok(())
}

/// The kind, after the checks of the fields before the entries.
fn checked_kind(bytes: &[u8]) -> Result<Kind, MetaFault>
    requires { entry_place 0 ≤ length bytes.now }
    ensures value { result ≡ checked (field_checks bytes.now) (kind_in bytes.now) }
    ensures small { IfOk result (λ _. number_at w32 20 bytes.now ≤ DATA_BYTES) }
{
    let id = u64_at(bytes, 8);
    if !(1..=LAST_ID).contains(&id) {
        return Err(MetaFault::Field { offset: 8, got: id });
    }
    let Some(kind) = kind_at(bytes[16]) else {
        return Err(MetaFault::Field {
            offset: 16,
            got: u64::from(bytes[16]),
        });
    };
    if bytes[17] != 0 {
        return Err(MetaFault::Field {
            offset: 17,
            got: u64::from(bytes[17]),
        });
    }
    let data_length = u32_at(bytes, 20);
    if !(1..=DATA_BYTES).contains(&u64::from(data_length)) {
        return Err(MetaFault::Field {
            offset: 20,
            got: u64::from(data_length),
        });
    }
    let end = zeros_end(bytes, 56, 456);
    if end != 512 {
        return Err(MetaFault::Field {
            offset: 56,
            got: u64::from(bytes[end]),
        });
    }
    Ok(kind)
}

fn field_fault(offset: usize, got: u64) -> MetaFault
    requires { offset < 2 ^ 32 }
    ensures { result ≡ Field offset got }
{
    MetaFault::Field {
        offset: offset as u32,
        got,
    }
}

/// Whether an entry's data may end here, with so many entries to come.
fn ends_right(after: u16, data_length: u32, end: u32) -> bool
    ensures { result ≡ is_end after data_length end }
{
    if after == 0 {
        end == data_length
    } else {
        end <= data_length
    }
}

/// The entry that stands after others whose data ends at `end`, and before `after` more.
fn next_entry(
    bytes: &[u8],
    kind: Kind,
    data_length: u32,
    after: u16,
    before: &[Entry],
    end: u32,
) -> Result<Entry, MetaFault>
    requires length { entry_place (length before.now + 1) ≤ length bytes.now }
    requires place { length before.now + after < MOST_ENTRIES }
    requires end { end ≡ bytes_of before.now }
    requires small { end ≤ DATA_BYTES }
    ensures value { result ≡ next_read kind data_length after before.now bytes.now }
    ensures fits { IfOk result (λ entry. end + entry.length ≤ data_length) }
{
    let at = 512 + 48 * before.len();
    let entry = Entry {
        digest: digest_at(bytes, at),
        offset: u32_at(bytes, at + 32),
        length: u32_at(bytes, at + 36),
        level: bytes[at + 40],
    };
    if stands_in(before, &entry.digest) {
        return Err(field_fault(at, u64::from(bytes[at])));
    }
    if entry.offset != end {
        return Err(field_fault(at + 32, u64::from(entry.offset)));
    }
    if !takes_length(kind, entry.length) || !ends_right(after, data_length, end + entry.length) {
        return Err(field_fault(at + 36, u64::from(entry.length)));
    }
    if !takes_level(kind, entry.level) {
        return Err(field_fault(at + 40, u64::from(entry.level)));
    }
    let zeros = seven_at(bytes, at + 41);
    if zeros != 0 {
        return Err(field_fault(at + 41, zeros));
    }
    Ok(entry)
}

/// Fills a list with so many entries, up to the first fault.
fn read_entries(
    bytes: &[u8],
    kind: Kind,
    data_length: u32,
    count: u16,
    entries: &mut Vec<Entry>,
) -> Result<(), MetaFault>
    requires length { entry_place count ≤ length bytes.now }
    requires few { count ≤ MOST_ENTRIES }
    requires small { data_length ≤ DATA_BYTES }
    requires none { entries.old.items ≡ [] }
    requires room { MOST_ENTRIES ≤ vec_capacity entries.old }
    ensures value { filled result entries.new.items ≡ entries_at kind data_length count [] bytes.now }
    ensures capacity { vec_capacity entries.old ≤ vec_capacity entries.new }
{
    let mut end = 0;
    for i in 0..count {
        let entry = next_entry(bytes, kind, data_length, count - 1 - i, entries, end)?;
        end += entry.length;
        push_entry(entries, entry);
    }
    Ok(())
}

#[tactic(auto, unfolding(crate::specs::Reading::header_at))]
fn header_into(bytes: &[u8], entries: &mut Vec<Entry>) -> Result<Header, MetaFault>
    requires length { ReachEnd bytes.now }
    requires room { MOST_ENTRIES ≤ vec_capacity entries.old }
    ensures value { decoded result entries.new.items ≡ header_at bytes.now }
    ensures stored { IfOk result (λ h. h.digest ≡ range 24 32 bytes.now) }
    ensures capacity { vec_capacity entries.old ≤ vec_capacity entries.new }
{
    entries.clear();
    let count = checked_count(bytes)?;
    check_digest(bytes, count)?;
    let kind = checked_kind(bytes)?;
    let data_length = u32_at(bytes, 20);
    read_entries(bytes, kind, data_length, count, entries)?;
    Ok(Header {
        id: u64_at(bytes, 8),
        kind,
        data_length,
        digest: digest_at(bytes, 24),
    })
}

/// The header that the first bytes of a slot spell. Its entries go into a list that is given, in the place of what it
/// held; no memory is taken. After an error the list may hold any entries.
///
/// The bytes are as many as `header_end` says of them, or more, and what comes after these is not looked at. The list has
/// memory for `disk_format::MOST_ENTRIES`. The checks go in the order of docs/FORMAT.md, 'Container slot', and the first that
/// fails is the fault: the gate, the magic, the count of entries, the digest, and then field by field. It never answers
/// `MetaFault::Memory`.
pub fn decode_into(bytes: &[u8], entries: &mut Vec<Entry>) -> Result<Header, MetaFault>
    requires length { ReachEnd bytes.now }
    requires room { MOST_ENTRIES ≤ vec_capacity entries.old }
    // What is read is a header, and is spelled so.
    ensures found { IfOk result (λ h. IsSpelled (with_entries h entries.new.items) bytes.now) }
    ensures digest { IfOk result (λ h. h.digest ≡ header_digest (with_entries h entries.new.items)) }
    // What is spelled so is read.
    ensures only { (h : HeaderValue) → IsSpelled h bytes.now → decoded result entries.new.items ≡ Ok h }
    // Which fault it is.
    ensures value { decoded result entries.new.items ≡ header_at bytes.now }
    ensures capacity { vec_capacity entries.old ≤ vec_capacity entries.new }
{
    header_into(bytes, entries)
}

/// The header that the first bytes of a slot spell, with its entries in a list of their own.
///
/// The fault is the one that `decode_into` answers, or `MetaFault::Memory`.
pub fn decode(alloc: Global, bytes: &[u8]) -> Result<Meta, MetaFault>
    requires { ReachEnd bytes.now }
    // What is read is a header, and is spelled so.
    ensures found { IfOk result (λ m. IsSpelled (view m) bytes.now) }
    ensures digest { IfOk result (λ m. m.digest ≡ header_digest (view m)) }
    // What is spelled so is read, unless memory runs out.
    ensures only { (h : HeaderValue) → IsSpelled h bytes.now → Gives view result (Ok h) }
    // Which fault it is.
    ensures fault { Gives view result (header_at bytes.now) }
{
    let mut entries = Vec::with_capacity(alloc, MOST_ENTRIES)?;
    let header = decode_into(bytes, &mut entries)?;
    let digest = header.digest;
    Ok(Meta {
        id: header.id,
        kind: header.kind,
        data_length: header.data_length,
        digest,
        entries,
    })
}
