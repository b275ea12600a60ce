//! A line of a script: docs/FORMAT.md, 'Scripts'.
ghost use Rattle.std.specs.Prelude.{◌≡◌, ◌≢◌, ◌↔◌, ◌++◌, ◌∷◌, ℕ, List, codes, decimal, IfSome, IfNone, IsTrue};
ghost use Rattle.std.specs.List.{list_all};
ghost use Rattle.script_lines.specs.Grammar.{LineValue, IsLine, IsActor, IsWord, HasNoSpace, is_word_byte};
ghost use Rattle.script_lines.specs.LineValue.{line_value};

use crate::digits::is_hex;
use crate::words::{read_actor, read_percent, split_word};
use actor_parts::{Actor, Percent};

/// A line of a script. Names and digits are lent by the bytes that were read.
#[derive(Clone, Copy)]
pub enum Line<'a> {
    /// `begin A`: the actor begins to give a file.
    Begin(Actor),
    /// `push A HEX`: it gives more of its bytes, as hexadecimal digits of either case: two at least, and an even number.
    Push(Actor, &'a [u8]),
    /// `finish A`: it has given all bytes.
    Finish(Actor),
    /// `turn A`: it makes the next claim or seal that is due.
    Turn(Actor),
    /// `commit A NAME`: it makes all that are due, and gives the file a name: one byte or more, none a space or LF. Whether
    /// a file may have that name is not told.
    Commit(Actor, &'a [u8]),
    /// `abort A`: it gives up the file.
    Abort(Actor),
    /// `read A NAME`: it begins to take the file of a name.
    Read(Actor, &'a [u8]),
    /// `next A`: it takes the next piece.
    Next(Actor),
    /// `drop A`: it takes no more.
    Drop(Actor),
    /// `delete NAME`: the name goes away, with its file. The name is as in `commit`.
    Delete(&'a [u8]),
    /// `list`: the names, each with its file's root.
    List,
    /// `gc P`: a collection begins, which takes containers of which less than that percentage is live, or nothing is.
    Gc(Percent),
    /// `step`: the next step of the collection that runs.
    Step,
    /// `sweep`: all steps of it that are left.
    Sweep,
    /// `stat`: what the store holds.
    Stat,
    /// `unique`: how many keys the trees of all names have, each counted once.
    Unique,
    /// `reopen`: all actors end, and the store is opened again.
    Reopen,
}

/// The line that the bytes are, without the LF that ends it; none where they are no line. It takes no memory.
pub fn read_line(bytes: &[u8]) -> Option<Line<'_>>
    ensures found { IfSome result (λ line. IsLine (line_value line) bytes.now) }
    ensures none { IfNone result ((value : LineValue) → IsLine value bytes.now → ⊥) }
{
    match split_word(bytes) {
        Some((word, rest)) => line_of_words(word, rest),
        None => line_of_one(bytes),
    }
}

// The line of a word and of what stands after the space after it.
fn line_of_words<'a>(word: &[u8], rest: &'a [u8]) -> Option<Line<'a>>
    requires { HasNoSpace word.now }
    ensures found { IfSome result (λ line. IsLine (line_value line) (word.now ++ (32 ∷ rest.now))) }
    ensures none { IfNone result ((value : LineValue) → IsLine value (word.now ++ (32 ∷ rest.now)) → ⊥) }
{
    if word == b"delete".as_slice() {
        return line_of_delete(rest);
    }
    if word == b"gc".as_slice() {
        return line_of_gc(rest);
    }
    match split_word(rest) {
        Some((number, argument)) => line_of_three(word, read_actor(number)?, argument),
        None => line_of_two(word, read_actor(rest)?),
    }
}

// The line of what stands after `delete` and the space after it: no actor is read from it.
fn line_of_delete<'a>(name: &'a [u8]) -> Option<Line<'a>>
    ensures found { IfSome result (λ line. IsLine (line_value line) (codes "delete " ++ name.now)) }
    ensures none { IfNone result ((value : LineValue) → IsLine value (codes "delete " ++ name.now) → ⊥) }
{
    if is_word(name) {
        Some(Line::Delete(name))
    } else {
        None
    }
}

// The line of what stands after `gc` and the space after it: no actor is read from it.
fn line_of_gc<'a>(number: &[u8]) -> Option<Line<'a>>
    ensures found { IfSome result (λ line. IsLine (line_value line) (codes "gc " ++ number.now)) }
    ensures none { IfNone result ((value : LineValue) → IsLine value (codes "gc " ++ number.now) → ⊥) }
{
    Some(Line::Gc(read_percent(number)?))
}

fn line_of_one<'a>(word: &[u8]) -> Option<Line<'a>>
    requires { HasNoSpace word.now }
    ensures found { IfSome result (λ line. IsLine (line_value line) word.now) }
    ensures none { IfNone result ((value : LineValue) → IsLine value word.now → ⊥) }
{
    if word == b"stat".as_slice() {
        Some(Line::Stat)
    } else if word == b"unique".as_slice() {
        Some(Line::Unique)
    } else if word == b"reopen".as_slice() {
        Some(Line::Reopen)
    } else if word == b"list".as_slice() {
        Some(Line::List)
    } else if word == b"step".as_slice() {
        Some(Line::Step)
    } else if word == b"sweep".as_slice() {
        Some(Line::Sweep)
    } else {
        None
    }
}

fn line_of_two<'a>(word: &[u8], actor: Actor) -> Option<Line<'a>>
    requires word { HasNoSpace word.now }
    requires no_delete { word.now ≢ codes "delete" }
    requires no_gc { word.now ≢ codes "gc" }
    requires actor { IsActor actor }
    ensures found { IfSome result (λ line. IsLine (line_value line) (word.now ++ (32 ∷ decimal actor))) }
    ensures none { IfNone result ((value : LineValue) → IsLine value (word.now ++ (32 ∷ decimal actor)) → ⊥) }
{
    if word == b"begin".as_slice() {
        Some(Line::Begin(actor))
    } else if word == b"finish".as_slice() {
        Some(Line::Finish(actor))
    } else if word == b"turn".as_slice() {
        Some(Line::Turn(actor))
    } else if word == b"abort".as_slice() {
        Some(Line::Abort(actor))
    } else if word == b"next".as_slice() {
        Some(Line::Next(actor))
    } else if word == b"drop".as_slice() {
        Some(Line::Drop(actor))
    } else {
        None
    }
}

fn line_of_three<'a>(word: &[u8], actor: Actor, argument: &'a [u8]) -> Option<Line<'a>>
    requires word { HasNoSpace word.now }
    requires no_delete { word.now ≢ codes "delete" }
    requires no_gc { word.now ≢ codes "gc" }
    requires actor { IsActor actor }
    ensures found { IfSome result (λ line.
        IsLine (line_value line) (word.now ++ (32 ∷ (decimal actor ++ (32 ∷ argument.now))))) }
    ensures none { IfNone result ((value : LineValue) →
        IsLine value (word.now ++ (32 ∷ (decimal actor ++ (32 ∷ argument.now)))) → ⊥) }
{
    if word == b"push".as_slice() {
        if is_hex(argument) {
            Some(Line::Push(actor, argument))
        } else {
            None
        }
    } else if word == b"commit".as_slice() {
        if is_word(argument) {
            Some(Line::Commit(actor, argument))
        } else {
            None
        }
    } else if word == b"read".as_slice() {
        if is_word(argument) {
            Some(Line::Read(actor, argument))
        } else {
            None
        }
    } else {
        None
    }
}

// One byte or more, none a space or LF.
fn is_word(bytes: &[u8]) -> bool
    ensures { IsTrue result ↔ IsWord bytes.now }
{
    !bytes.is_empty() && has_word_bytes(bytes)
}

fn has_word_bytes(bytes: &[u8]) -> bool
    ensures { result ≡ list_all is_word_byte bytes.now }
{
    bytes.iter().all(|byte| *byte != b' ' && *byte != b'\n')
}

/// A law for proofs that stand on it: bytes are one line at most. The function does nothing.
pub fn one_line()
    ensures { (bytes : List ℕ) (one other : LineValue) → IsLine one bytes → IsLine other bytes → one ≡ other }
{}
