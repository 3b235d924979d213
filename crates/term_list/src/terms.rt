//! A list of terms.

ghost use Rattle.std.specs.Prelude.{◌≡◌, ◌-◌, ◌^◌, ◌<◌, ◌≤◌, ◌↔◌, IsTrue, All, [], ◌∷◌, ◌++◌, length, map, take, slice_get, slice_range, Some, OnOk, OnErr, IfOk};
ghost use Rattle.term_list.specs.Packed.{term_in, moved_by, IsWithin, HasGrown};

use crate::TermRef;
use crate::span::Span;
use gk_base::NoMemory;
use std::alloc::Global;
use std::marker::Model;

/// The most bytes that the texts of a list may have in all, since they have places of four bytes.
const MOST_BYTES: usize = u32::MAX as usize;

/// A list of terms, whose texts stand one after another in one region of memory. It holds texts of 2^32 - 1 bytes in all at
/// most. Contracts see the list of the terms.
#[derive(Drop)]
pub struct Terms {
    bytes: Vec<u8>,
    spans: Vec<Span>,
}

impl Model for Terms {
    ghost use Rattle.std.specs.Prelude.{List, length};
    ghost use Rattle.gk_base.specs.declared.term.Term.{Term};
    ghost use Rattle.term_list.specs.Packed.{terms_in, AreWithin};

    ghost Value = { List Term };

    ghost view = { λ t. terms_in t.bytes.items t.spans.items };

    ghost invariant = { λ t. AreWithin (length t.bytes.items) t.spans.items };
}

/// Puts these spans at the end of a list, each so many bytes further on; all or none.
fn push_moved(spans: &mut Vec<Span>, more: &[Span], by: u32) -> Result<(), NoMemory>
    requires { All (λ span. IsWithin (2 ^ 32 - 1 - by) span) more.now }
    ensures ok { OnOk result (spans.new.items ≡ spans.old.items ++ map (moved_by by) more.now) }
    ensures err { OnErr result (spans.new.items ≡ spans.old.items) }
{
    let len = spans.len();
    let mut at = 0;
    while at < more.len() {
        let span = more[at];
        let moved = Span {
            kind: span.kind,
            start: span.start + by,
            middle: span.middle + by,
            end: span.end + by,
        };
        if spans.push(moved).is_err() {
            spans.truncate(len);
            return Err(NoMemory);
        }
        at += 1;
    }
    Ok(())
}

/// The bytes from one place to another.
#[inline]
fn part(bytes: &[u8], from: u32, to: u32) -> &[u8]
    requires ordered { from ≤ to }
    requires within { to ≤ length bytes.now }
    ensures { result.now ≡ slice_range bytes.now from to }
{
    &bytes[from as usize..to as usize]
}

/// Puts the texts of a term at the end of these bytes, and tells where they stand.
#[inline]
fn put_texts(bytes: &mut Vec<u8>, term: &TermRef<'_>) -> Result<Span, NoMemory>
    ensures within { IfOk result (λ span. IsWithin (length bytes.new.items) span) }
    ensures stands { IfOk result (λ span. term_in bytes.new.items span ≡ term.now) }
    ensures grown { HasGrown bytes.old.items bytes.new.items }
{
    let start = bytes.len();
    bytes.extend_from_slice(term.first)?;
    let middle = bytes.len();
    bytes.extend_from_slice(term.second)?;
    let end = bytes.len();
    if end > MOST_BYTES {
        return Err(NoMemory);
    }
    Ok(Span {
        kind: term.kind,
        start: start as u32,
        middle: middle as u32,
        end: end as u32,
    })
}

impl Terms {
    /// No terms. It takes no memory.
    pub fn new(alloc: Global) -> Terms
        ensures { result ≡ [] }
    {
        Terms {
            bytes: Vec::new(alloc),
            spans: Vec::new(alloc),
        }
    }

    /// How many terms there are.
    #[inline]
    pub fn len(&self) -> usize
        ensures { result ≡ length self.now }
    {
        self.spans.len()
    }

    /// Whether there are none.
    pub fn is_empty(&self) -> bool
        ensures { IsTrue result ↔ (self.now ≡ []) }
    {
        self.spans.is_empty()
    }

    /// The term at this place, counted from 0.
    #[inline]
    pub fn get(&self, at: usize) -> TermRef<'_>
        requires { at < length self.now }
        ensures { slice_get self.now at ≡ Some result }
    {
        let span = self.spans[at];
        TermRef {
            kind: span.kind,
            first: part(&self.bytes, span.start, span.middle),
            second: part(&self.bytes, span.middle, span.end),
        }
    }

    /// Puts a copy of this term at the end. After `NoMemory`, which comes also where the texts would be longer than a list
    /// can hold, the list is as it was.
    pub fn push(&mut self, term: &TermRef<'_>) -> Result<(), NoMemory>
        ensures ok { OnOk result (self.new ≡ self.old ++ term.now ∷ []) }
        ensures err { OnErr result (self.new ≡ self.old) }
    {
        let span = put_texts(&mut self.bytes, term)?;
        self.spans.push(span)?;
        Ok(())
    }

    /// Puts copies of the terms of another list at the end. After `NoMemory`, which comes also where the texts of both would
    /// be longer than a list can hold, the list is as it was.
    pub fn append(&mut self, other: &Terms) -> Result<(), NoMemory>
        ensures ok { OnOk result (self.new ≡ self.old ++ other.now) }
        ensures err { OnErr result (self.new ≡ self.old) }
    {
        let start = self.bytes.len();
        if start > MOST_BYTES || other.bytes.len() > MOST_BYTES - start {
            return Err(NoMemory);
        }
        self.bytes.extend_from_slice(&other.bytes)?;
        push_moved(&mut self.spans, &other.spans, start as u32)
    }

    /// Keeps the first so many terms.
    pub fn truncate(&mut self, len: usize)
        requires { len ≤ length self.old }
        ensures { self.new ≡ take len self.old }
    {
        self.spans.truncate(len);
    }

    /// Leaves no terms. The memory stays, for further ones.
    pub fn clear(&mut self)
        ensures { self.new ≡ [] }
    {
        self.spans.clear();
        self.bytes.clear();
    }
}
