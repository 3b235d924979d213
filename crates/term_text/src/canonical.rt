//! The canonical text of terms and triples.

ghost use Rattle.std.specs.Prelude.{◌≡◌, ◌++◌, OnOk, OnErr, length};
ghost use Rattle.term_text.specs.CanonicalText.{iri_text, string_text, term_text, triple_text};
ghost use Rattle.term_text.specs.Appending.{BeginsWith};
ghost use Rattle.term_text.specs.ReadBack.{CanBeSpelled};
ghost use Rattle.nt_lex.specs.Reading.{Reads};

use crate::escapes::{Inside, put, put_escaped};
use gk_base::{NoMemory, Term, Triple};
use term_list::{TermKind, TermRef};

/// Appends the canonical text of a term. After `NoMemory` the buffer holds what it held before.
pub fn put_term(buf: &mut Vec<u8>, term: &Term) -> Result<(), NoMemory>
    ensures ok { OnOk result (buf.new.items ≡ buf.old.items ++ term_text term.now) }
    // Reading what was appended gives the term again, where N-Triples can spell it.
    ensures read_back { OnOk result (CanBeSpelled term.now
        → Reads buf.new.items (length buf.old.items) term.now (length buf.new.items)) }
    ensures err { OnErr result (buf.new.items ≡ buf.old.items) }
{
    put_lent_term(buf, &TermRef::of(term))
}

/// Appends the canonical text of a term that is lent. After `NoMemory` the buffer holds what it held before.
pub fn put_lent_term(buf: &mut Vec<u8>, term: &TermRef<'_>) -> Result<(), NoMemory>
    ensures ok { OnOk result (buf.new.items ≡ buf.old.items ++ term_text term.now) }
    // Reading what was appended gives the term again, where N-Triples can spell it.
    ensures read_back { OnOk result (CanBeSpelled term.now
        → Reads buf.new.items (length buf.old.items) term.now (length buf.new.items)) }
    ensures err { OnErr result (buf.new.items ≡ buf.old.items) }
{
    let before = buf.len();
    let done = append_term(buf, term);
    if done.is_err() {
        buf.truncate(before);
    }
    done
}

/// Appends the canonical text of a triple, which ends with LF. After `NoMemory` the buffer holds what it held before.
pub fn put_triple(buf: &mut Vec<u8>, triple: &Triple) -> Result<(), NoMemory>
    ensures ok { OnOk result (buf.new.items ≡ buf.old.items ++ triple_text triple.now) }
    ensures err { OnErr result (buf.new.items ≡ buf.old.items) }
{
    put_lent_triple(
        buf,
        &TermRef::of(&triple.subject),
        &TermRef::of(&triple.predicate),
        &TermRef::of(&triple.object),
    )
}

/// Appends the canonical text of a triple of lent terms, which ends with LF. After `NoMemory` the buffer holds what it held
/// before.
pub fn put_lent_triple(
    buf: &mut Vec<u8>,
    subject: &TermRef<'_>,
    predicate: &TermRef<'_>,
    object: &TermRef<'_>,
) -> Result<(), NoMemory>
    ensures ok { OnOk result (buf.new.items ≡ buf.old.items
        ++ triple_text (record { subject = subject.now; predicate = predicate.now; object = object.now })) }
    ensures err { OnErr result (buf.new.items ≡ buf.old.items) }
{
    let before = buf.len();
    let done = append_triple(buf, subject, predicate, object);
    if done.is_err() {
        buf.truncate(before);
    }
    done
}

/// Appends the canonical text of a triple, or a front of it where memory runs out.
fn append_triple(
    buf: &mut Vec<u8>,
    subject: &TermRef<'_>,
    predicate: &TermRef<'_>,
    object: &TermRef<'_>,
) -> Result<(), NoMemory>
    ensures ok { OnOk result (buf.new.items ≡ buf.old.items
        ++ triple_text (record { subject = subject.now; predicate = predicate.now; object = object.now })) }
    ensures kept { BeginsWith buf.old.items buf.new.items }
{
    append_term(buf, subject)?;
    put(buf, b" ")?;
    append_term(buf, predicate)?;
    put(buf, b" ")?;
    append_term(buf, object)?;
    put(buf, b" .\n")
}

/// Appends the canonical text of a term, or a front of it where memory runs out.
fn append_term(buf: &mut Vec<u8>, term: &TermRef<'_>) -> Result<(), NoMemory>
    ensures ok { OnOk result (buf.new.items ≡ buf.old.items ++ term_text term.now) }
    ensures kept { BeginsWith buf.old.items buf.new.items }
{
    match term.kind() {
        TermKind::Iri => append_iri(buf, term.first()),
        TermKind::Blank => append_marked(buf, b"_:", term.first()),
        TermKind::Plain => append_string(buf, term.first()),
        TermKind::Typed => {
            append_string(buf, term.first())?;
            put(buf, b"^^")?;
            append_iri(buf, term.second())
        }
        TermKind::Lang => {
            append_string(buf, term.first())?;
            append_marked(buf, b"@", term.second())
        }
    }
}

/// Appends a mark and a text as it is.
fn append_marked(buf: &mut Vec<u8>, mark: &[u8], text: &[u8]) -> Result<(), NoMemory>
    ensures ok { OnOk result (buf.new.items ≡ buf.old.items ++ (mark.now ++ text.now)) }
    ensures kept { BeginsWith buf.old.items buf.new.items }
{
    put(buf, mark)?;
    put(buf, text)
}

/// Appends an IRI between angle brackets.
fn append_iri(buf: &mut Vec<u8>, name: &[u8]) -> Result<(), NoMemory>
    ensures ok { OnOk result (buf.new.items ≡ buf.old.items ++ iri_text name.now) }
    ensures kept { BeginsWith buf.old.items buf.new.items }
{
    put(buf, b"<")?;
    put_escaped(buf, name, Inside::Brackets)?;
    put(buf, b">")
}

/// Appends a string between quotation marks.
fn append_string(buf: &mut Vec<u8>, form: &[u8]) -> Result<(), NoMemory>
    ensures ok { OnOk result (buf.new.items ≡ buf.old.items ++ string_text form.now) }
    ensures kept { BeginsWith buf.old.items buf.new.items }
{
    put(buf, b"\"")?;
    put_escaped(buf, form, Inside::Quotes)?;
    put(buf, b"\"")
}
