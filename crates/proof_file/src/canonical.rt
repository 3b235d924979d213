//! The canonical text of a proof.

ghost use Rattle.std.specs.Prelude.{◌≡◌, ◌+◌, ◌++◌, ◌∷◌, map, OnOk, OnErr};
ghost use Rattle.std.specs.List.{flat_map};
ghost use Rattle.std.specs.Fmt.{decimal};
ghost use Rattle.term_text.specs.Appending.{BeginsWith};
ghost use Rattle.proof_file.specs.CanonicalProof.{numbers_text, support_text, side_text, key_line, step_text, listed_text, count_text, numbered_text, proof_text};

use crate::{Proof, ProofStep, Support};
use gk_base::{NoMemory, Text};
use term_list::{TermRef, Terms};
use term_text::put_lent_term;

/// Appends these bytes.
fn put(buf: &mut Vec<u8>, piece: &[u8]) -> Result<(), NoMemory>
    ensures ok { OnOk result (buf.new.items ≡ buf.old.items ++ piece.now) }
    ensures kept { BeginsWith buf.old.items buf.new.items }
{
    buf.extend_from_slice(piece)?;
    Ok(())
}

/// Appends the decimal digits of a number.
fn put_decimal(buf: &mut Vec<u8>, number: u64) -> Result<(), NoMemory>
    ensures ok { OnOk result (buf.new.items ≡ buf.old.items ++ decimal number) }
    ensures kept { BeginsWith buf.old.items buf.new.items }
{
    if number >= 10 {
        put_decimal(buf, number / 10)?;
    }
    put(buf, &[b'0' + (number % 10) as u8])
}

/// Appends a space and a number.
fn put_number(buf: &mut Vec<u8>, number: u64) -> Result<(), NoMemory>
    ensures ok { OnOk result (buf.new.items ≡ buf.old.items ++ 0x20 ∷ decimal number) }
    ensures kept { BeginsWith buf.old.items buf.new.items }
{
    put(buf, b" ")?;
    put_decimal(buf, number)
}

/// Appends numbers, each with a space before it.
fn put_numbers(buf: &mut Vec<u8>, numbers: &[u32]) -> Result<(), NoMemory>
    ensures ok { OnOk result (buf.new.items ≡ buf.old.items ++ numbers_text numbers.now) }
    ensures kept { BeginsWith buf.old.items buf.new.items }
{
    for number in numbers {
        put_number(buf, u64::from(*number))?;
    }
    Ok(())
}

/// Appends the numbers that terms with these places have in a file.
fn put_places(buf: &mut Vec<u8>, places: &[u32]) -> Result<(), NoMemory>
    ensures ok { OnOk result (buf.new.items ≡ buf.old.items ++ numbers_text (map (λ p. p + 1) places.now)) }
    ensures kept { BeginsWith buf.old.items buf.new.items }
{
    for place in places {
        put_number(buf, u64::from(*place) + 1)?;
    }
    Ok(())
}

/// Appends the line of a support.
fn put_support(buf: &mut Vec<u8>, support: &Support) -> Result<(), NoMemory>
    ensures ok { OnOk result (buf.new.items ≡ buf.old.items ++ support_text support.now) }
    ensures kept { BeginsWith buf.old.items buf.new.items }
{
    put(buf, b"by")?;
    put_number(buf, u64::from(support.slot))?;
    put_numbers(buf, &support.steps)?;
    put(buf, b"\n")
}

/// Appends the lines of supports.
fn put_supports(buf: &mut Vec<u8>, supports: &[Support]) -> Result<(), NoMemory>
    ensures ok { OnOk result (buf.new.items ≡ buf.old.items ++ flat_map support_text supports.now) }
    ensures kept { BeginsWith buf.old.items buf.new.items }
{
    for support in supports {
        put_support(buf, support)?;
    }
    Ok(())
}

/// Appends the line of a side.
fn put_side(buf: &mut Vec<u8>, word: &[u8], places: &[u32]) -> Result<(), NoMemory>
    ensures ok { OnOk result (buf.new.items ≡ buf.old.items ++ side_text word.now places.now) }
    ensures kept { BeginsWith buf.old.items buf.new.items }
{
    put(buf, word)?;
    put_places(buf, places)?;
    put(buf, b"\n")
}

/// Appends the line that begins a step by the key of this name.
fn put_key(buf: &mut Vec<u8>, name: &Text) -> Result<(), NoMemory>
    ensures ok { OnOk result (buf.new.items ≡ buf.old.items ++ key_line name.now) }
    ensures kept { BeginsWith buf.old.items buf.new.items }
{
    put(buf, b"step ")?;
    put(buf, name.bytes())?;
    put(buf, b"\n")
}

/// Appends the lines of a step.
fn put_step(buf: &mut Vec<u8>, step: &ProofStep) -> Result<(), NoMemory>
    ensures ok { OnOk result (buf.new.items ≡ buf.old.items ++ step_text step.now) }
    ensures kept { BeginsWith buf.old.items buf.new.items }
{
    put_key(buf, &step.key)?;
    put_side(buf, b"left", &step.left)?;
    put_side(buf, b"right", &step.right)?;
    put_supports(buf, &step.supports)?;
    put(buf, b"done\n")
}

/// Appends the lines of steps.
fn put_steps(buf: &mut Vec<u8>, steps: &[ProofStep]) -> Result<(), NoMemory>
    ensures ok { OnOk result (buf.new.items ≡ buf.old.items ++ flat_map step_text steps.now) }
    ensures kept { BeginsWith buf.old.items buf.new.items }
{
    for step in steps {
        put_step(buf, step)?;
    }
    Ok(())
}

/// Appends the line of a listed term.
fn put_listed(buf: &mut Vec<u8>, term: &TermRef<'_>) -> Result<(), NoMemory>
    ensures ok { OnOk result (buf.new.items ≡ buf.old.items ++ listed_text term.now) }
    ensures kept { BeginsWith buf.old.items buf.new.items }
{
    put_lent_term(buf, term)?;
    put(buf, b"\n")
}

/// Appends the lines of listed terms.
fn put_terms(buf: &mut Vec<u8>, terms: &Terms) -> Result<(), NoMemory>
    ensures ok { OnOk result (buf.new.items ≡ buf.old.items ++ flat_map listed_text terms.now) }
    ensures kept { BeginsWith buf.old.items buf.new.items }
{
    for place in 0..terms.len() {
        put_listed(buf, &terms.get(place))?;
    }
    Ok(())
}

/// Appends a word, a number and a line end.
fn put_count(buf: &mut Vec<u8>, word: &[u8], count: usize) -> Result<(), NoMemory>
    ensures ok { OnOk result (buf.new.items ≡ buf.old.items ++ count_text word.now count) }
    ensures kept { BeginsWith buf.old.items buf.new.items }
{
    put(buf, word)?;
    put_number(buf, count as u64)?;
    put(buf, b"\n")
}

/// Appends the lines of a proof with these terms and these steps.
fn append_proof(buf: &mut Vec<u8>, terms: &Terms, steps: &[ProofStep]) -> Result<(), NoMemory>
    ensures ok { OnOk result (buf.new.items ≡ buf.old.items ++ numbered_text terms.now steps.now) }
    ensures kept { BeginsWith buf.old.items buf.new.items }
{
    put(buf, b"gkey-proof 2\n")?;
    put_count(buf, b"terms", terms.len())?;
    put_terms(buf, terms)?;
    put_steps(buf, steps)?;
    put_count(buf, b"end", steps.len())
}

/// Appends the canonical text of a proof, in version 2. After `NoMemory` the buffer holds what it held before.
pub fn put_proof(buf: &mut Vec<u8>, proof: &Proof) -> Result<(), NoMemory>
    ensures ok { OnOk result (buf.new.items ≡ buf.old.items ++ proof_text proof.now) }
    ensures err { OnErr result (buf.new.items ≡ buf.old.items) }
{
    let before = buf.len();
    let done = append_proof(buf, &proof.terms, &proof.steps);
    if done.is_err() {
        buf.truncate(before);
    }
    done
}
