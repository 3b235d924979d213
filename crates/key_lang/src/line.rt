//! Judges one line where it stands: a statement, or nothing.

ghost use Rattle.std.specs.Prelude.{◌≡◌, ◌≤◌, length, IsUtf8};
ghost use Rattle.gk_base.specs.Answers.{IsSo};
ghost use Rattle.key_lang.specs.Parts.{reopened_by};
ghost use Rattle.key_lang.specs.Fair.{IsFairBeside, IsFairState};
ghost use Rattle.key_lang.specs.Statements.{OutsideSays, InsideSays, begins_triple, StatementSays, KeyLineSays};

use crate::declarations::{key_statement, typed_statement, value_statement};
use crate::endings::end_statement;
use crate::fault::{KeyFault, LineStop};
use crate::keyword::{Keyword, keyword_of};
use crate::open_key::{OpenKey, Progress};
use crate::tokens::{byte_at, is_over, word_end};
use crate::triples::triple_statement;
use key_file::KeyFile;
use nt_lex::skip_space;
use std::alloc::Global;

/// How many keys a file may have.
const MOST_KEYS: usize = 64;

/// The file with the open key as a statement changed it.
fn reopened(keys: KeyFile, changed: Result<OpenKey, LineStop>) -> Result<Progress, LineStop>
    ensures { result ≡ reopened_by keys changed }
{
    Ok(Progress {
        keys,
        current: Some(changed?),
    })
}

/// A statement by its first word, from the place after it, outside a key.
fn outside_statement(
    alloc: Global,
    keys: KeyFile,
    word: Keyword,
    line: &[u8],
    at: usize,
) -> Result<Progress, LineStop>
    requires inside { at ≤ length line.now }
    requires utf8 { IsUtf8 line.now }
    ensures { IsSo (OutsideSays keys word line.now at) result }
{
    if word != Keyword::Key {
        return Err(LineStop::Fault(KeyFault::StatementOutOfPlace));
    }
    if keys.len() >= MOST_KEYS {
        return Err(LineStop::Fault(KeyFault::TooManyKeys));
    }
    key_statement(alloc, keys, line, at)
}

/// A statement by its first word, from the place after it, inside a key.
fn inside_statement(
    alloc: Global,
    keys: KeyFile,
    key: OpenKey,
    word: Keyword,
    line: &[u8],
    at: usize,
) -> Result<Progress, LineStop>
    requires inside { at ≤ length line.now }
    requires utf8 { IsUtf8 line.now }
    requires fair { IsFairBeside keys key }
    ensures { IsSo (InsideSays keys key word line.now at) result }
{
    match word {
        Keyword::Key => Err(LineStop::Fault(KeyFault::StatementOutOfPlace)),
        Keyword::Entity => reopened(keys, typed_statement(alloc, b'?', key, line, at)),
        Keyword::Any => reopened(keys, typed_statement(alloc, b'_', key, line, at)),
        Keyword::Value => reopened(keys, value_statement(alloc, false, key, line, at)),
        Keyword::Folded => reopened(keys, value_statement(alloc, true, key, line, at)),
        Keyword::End => end_statement(alloc, keys, key, line, at),
    }
}

/// Whether triples begin with this byte, be they good or not.
fn begins_triple(byte: u8) -> bool
    ensures { result ≡ begins_triple byte }
{
    byte == b'?' || byte == b'_' || byte == b'$' || byte == b'<' || byte == b'"'
}

/// The statement at `at`: a triple by its first byte, else by its first word.
fn statement(alloc: Global, state: Progress, line: &[u8], at: usize) -> Result<Progress, LineStop>
    requires inside { at ≤ length line.now }
    requires utf8 { IsUtf8 line.now }
    requires fair { IsFairState state }
    ensures { IsSo (StatementSays state line.now at) result }
{
    let Progress { keys, current } = state;
    if begins_triple(byte_at(line, at)) {
        return match current {
            Some(key) => reopened(keys, triple_statement(alloc, key, line, at)),
            None => Err(LineStop::Fault(KeyFault::StatementOutOfPlace)),
        };
    }
    let end = word_end(line, at);
    let Some(word) = keyword_of(&line[at..end]) else {
        return Err(LineStop::Fault(KeyFault::UnknownStatement));
    };
    match current {
        Some(key) => inside_statement(alloc, keys, key, word, line, end),
        None => outside_statement(alloc, keys, word, line, end),
    }
}

/// The file after one more line, which has no line feed and no carriage return.
pub(crate) fn after_line(alloc: Global, state: Progress, line: &[u8]) -> Result<Progress, LineStop>
    requires { IsFairState state }
    ensures { IsSo (KeyLineSays state line.now) result }
{
    if !simdutf8::is_utf8(line) {
        return Err(LineStop::Fault(KeyFault::NotUtf8));
    }
    let at = skip_space(line, 0);
    if is_over(line, at) {
        return Ok(state);
    }
    statement(alloc, state, line, at)
}
