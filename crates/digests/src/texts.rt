//! Byte strings that lie in one buffer, one behind the other.
ghost use Rattle.std.specs.Prelude.{◌≡◌, ◌<◌, ◌≤◌, ◌+◌, ◌∷◌, ◌++◌, [], IfOk, OnErr, OnOk, length, map, slice_index_or, sum_by};
ghost use Rattle.digests.specs.Texts.{KeepsRoom, text_in};

use std::alloc::{AllocError, Global};
use std::marker::Model;

/// Where a byte string lies in a buffer.
#[derive(Clone, Copy)]
struct Span {
    from: usize,
    count: usize,
}

/// The bytes of a span, as far as the buffer has them.
fn text(bytes: &[u8], span: Span) -> &[u8]
    ensures { result.now ≡ text_in bytes.now span }
{
    let rest = &bytes[span.from.min(bytes.len())..];
    &rest[..span.count.min(rest.len())]
}

/// Byte strings, one behind the other in one buffer.
#[derive(Drop)]
pub struct Texts {
    bytes: Vec<u8>,
    spans: Vec<Span>,
}

impl Model for Texts {
    ghost use Rattle.std.specs.Prelude.{map, vec_capacity};
    ghost use Rattle.digests.specs.Texts.{AreSpans, Texts as Held, text_in};

    ghost Value = { Held };

    ghost view = { λ t. record {
      all = map (text_in t.bytes.items) t.spans.items;
      places = vec_capacity t.spans;
      room = vec_capacity t.bytes;
    } };

    ghost invariant = { λ t. AreSpans t.bytes.items t.spans.items };
}

impl Texts {
    /// None. It takes no memory.
    pub fn new(alloc: Global) -> Texts
        ensures { result ≡ record { all = []; places = 0; room = 0 } }
    {
        Texts {
            bytes: Vec::new(alloc),
            spans: Vec::new(alloc),
        }
    }

    /// None, and room for so many, of so many bytes together. It fails for want of memory alone.
    pub fn with_room(alloc: Global, places: usize, room: usize) -> Result<Texts, AllocError>
        ensures { IfOk result (λ t. t ≡ record { all = []; places = places; room = room }) }
    {
        Ok(Texts {
            bytes: Vec::with_capacity(alloc, room)?,
            spans: Vec::with_capacity(alloc, places)?,
        })
    }

    /// How many there are.
    pub fn len(&self) -> usize
        ensures { result ≡ length self.now.all }
    {
        self.spans.len()
    }

    /// One of them.
    pub fn get(&self, n: usize) -> &[u8]
        requires { n < length self.now.all }
        ensures { result.now ≡ slice_index_or self.now.all n [] }
    {
        text(&self.bytes, self.spans[n])
    }

    /// Adds one, which there is room for: it takes no memory.
    pub fn push_reserved(&mut self, text: &[u8])
        requires place { length self.old.all < self.old.places }
        requires room { sum_by length self.old.all + length text.now ≤ self.old.room }
        ensures all { self.new.all ≡ self.old.all ++ text.now ∷ [] }
        ensures keeps { KeepsRoom self.old self.new }
    {
        let from = self.bytes.len();
        self.bytes.extend_from_slice(text).unwrap();
        self.spans.push_reserved(Span {
            from,
            count: text.len(),
        });
    }

    /// Adds one. It takes memory for it where there is no room, and where there is none they stay as they are.
    pub fn push(&mut self, text: &[u8]) -> Result<(), AllocError>
        ensures ok { OnOk result (self.new.all ≡ self.old.all ++ text.now ∷ []) }
        ensures err { OnErr result (self.new.all ≡ self.old.all) }
        ensures keeps { KeepsRoom self.old self.new }
    {
        self.spans.reserve(1)?;
        self.bytes.reserve(text.len())?;
        self.push_reserved(text);
        Ok(())
    }

    /// Forgets all, but for the memory.
    pub fn clear(&mut self)
        ensures all { self.new.all ≡ [] }
        ensures keeps { KeepsRoom self.old self.new }
    {
        self.bytes.clear();
        self.spans.clear();
    }

    /// All of them, in memory for as many places; the bytes stay where they are. It fails for want of memory alone.
    pub fn all(&self, alloc: Global) -> Result<Vec<&[u8]>, AllocError>
        ensures { IfOk result (λ texts. map (λ t. t.now) texts.items ≡ self.now.all) }
    {
        let mut all = Vec::with_capacity(alloc, self.spans.len())?;
        for span in &self.spans {
            all.push_reserved(text(&self.bytes, *span));
        }
        Ok(all)
    }
}
