//! A shelf over the system's files, which are found by their paths.

ghost use Rattle.std.specs.Prelude.{◌≡◌, ◌≤◌, ◌<◌, ◌+◌, ◌-◌, ◌^◌, ◌||◌, ◌↔◌, Ok, Some, None, false, true, length, min, is_ok, is_err, IsTrue, IsOk, IsErr, IfOk, IfSome, IsSomeAnd, OnOk, OnErr};
ghost use Rattle.std.specs.Str.{IsUtf8};
ghost use Rattle.std.specs.Io.KnownBytes.{ReadConsumes};
ghost use Rattle.gk_io.specs.Cause.{HasCause, Rose};

use crate::retries::{MOST_TRIES, tried};
use crate::{Failed, Shelf};
use gk_base::Text;
use std::fs::OpenFile;
use std::io::{ErrorKind, Read};
use std::marker::Model;
use std::random::RandomSource;
use std::rt::Files;
use std::{fs, str};

/// Opens a file to read it.
fn open<R: Files>(rt: &R, name: &Text) -> Result<R::File, Failed>
    ensures utf8 { IsOk result → IsUtf8 name.now }
{
    let Ok(path) = str::from_utf8(name.bytes()) else {
        return Err(Failed);
    };
    tried(|| fs::open(rt, path))
}

/// Reads some bytes.
pub(crate) fn read_some<F: Read>(file: &mut F, buf: &mut [u8]) -> Result<usize, Failed>
    ensures within { IfOk result (λ n. n ≤ length buf.old) }
    ensures bytes { ReadConsumes (F.remaining file.old) (F.remaining file.new) result buf.new }
{
    for _ in 0..MOST_TRIES {
        match file.read(buf) {
            Ok(n) => return Ok(n),
            Err(e) if e.kind() == ErrorKind::Interrupted => {}
            Err(_) => return Err(Failed),
        }
    }
    Err(Failed)
}

/// The system's files, by path. It tells no bytes.
///
/// A call that was interrupted is tried again, at most 1,000 times in a row, and then counts as a failure. No clause can say
/// what the system does, so tests alone show that a call is tried again, and that the file read after `find` is the one of
/// that name.
#[derive(Drop)]
pub struct DirShelf<'a, R: Files> {
    rt: &'a R,
    /// The file found last.
    file: Option<R::File>,
    asked: Option<Text>,
    bad: bool,
    faults: u64,
}

impl<'a, R: Files> Model for DirShelf<'a, R> {
    ghost use Rattle.std.specs.Prelude.{is_some, option_and_then};
    ghost use Rattle.gk_io.specs.DirShelf as dir;

    ghost Value = { dir.DirShelf };

    ghost view = { λ s. record { found = is_some s.file; rest = option_and_then R.File.Read.remaining s.file; asked = s.asked; bad = s.bad; faults = s.faults } };
}

impl<'a, R: Files> DirShelf<'a, R> {
    /// A shelf of the files that this runtime opens. It takes no memory.
    pub fn new(rt: &'a R) -> DirShelf<'a, R>
        ensures found { result.found ≡ false }
        ensures asked { result.asked ≡ None }
        ensures bad { result.bad ≡ false }
        ensures faults { result.faults ≡ 0 }
    {
        DirShelf {
            rt,
            file: None,
            asked: None,
            bad: false,
            faults: 0,
        }
    }

    /// Counts a failure.
    fn fail(&mut self) -> Failed
        ensures found { self.new.found ≡ self.old.found }
        ensures rest { self.new.rest ≡ self.old.rest }
        ensures asked { self.new.asked ≡ self.old.asked }
        ensures bad { self.new.bad ≡ true }
        ensures faults { self.new.faults ≡ min (self.old.faults + 1) (2 ^ 64 - 1) }
        ensures later { self.old.faults ≤ self.new.faults }
        ensures rose { Rose self.old.faults self.new.faults }
    {
        self.bad = true;
        self.faults = self.faults.saturating_add(1);
        Failed
    }

    /// Turns to the file that was opened under this name, to read all that is left of it; or notes that none could be opened,
    /// and stays at the file before.
    fn turn_to(&mut self, name: Text, opened: Result<R::File, Failed>) -> Result<(), Failed>
        ensures answer { IsOk result ↔ IsOk opened }
        ensures turned { IfOk opened (λ file. self.new.rest ≡ R.File.Read.remaining file) }
        ensures stays { OnErr opened (self.new.rest ≡ self.old.rest) }
        ensures found { self.new.found ≡ (self.old.found || is_ok opened) }
        ensures asked { self.new.asked ≡ Some name }
        ensures bad { IsTrue self.new.bad ↔ IsErr opened }
        ensures counts { OnErr opened (self.new.faults ≡ min (self.old.faults + 1) (2 ^ 64 - 1)) }
        ensures cause { HasCause self.old.faults self.new.faults result }
    {
        self.asked = Some(name);
        match opened {
            Ok(file) => {
                self.file = Some(file);
                self.bad = false;
                Ok(())
            }
            Err(Failed) => Err(self.fail()),
        }
    }
}

impl<'a, R: Files + RandomSource> Shelf for DirShelf<'a, R> {
    ghost faults = { λ s. s.faults };

    ghost asked = { λ s. s.asked };

    ghost bad = { λ s. s.bad };

    ghost held = { λ s. None };

    ghost rest = { λ s. None };

    /// Opens the file at this path. A name that is not UTF-8 is a failure.
    fn find(&mut self, name: Text) -> Result<(), Failed>
        ensures utf8 { IsOk result → IsUtf8 name }
        ensures opened { self.new.found ≡ (self.old.found || is_ok result) }
        ensures stays { OnErr result (self.new.rest ≡ self.old.rest) }
        ensures counts { OnErr result (self.new.faults ≡ min (self.old.faults + 1) (2 ^ 64 - 1)) }

        // What every shelf promises.
        ensures cause { HasCause self.old.faults self.new.faults result }
        ensures asked { self.new.asked ≡ Some name }
        ensures bad { IsTrue self.new.bad ↔ IsErr result }
    {
        let opened = open(self.rt, &name);
        self.turn_to(name, opened)
    }

    /// Reads on in the file found last, and finds nothing to read where none was found so far.
    fn read(&mut self, buf: &mut [u8]) -> Result<usize, Failed>
        ensures nothing { self.old.found ≡ false → result ≡ Ok 0 }
        ensures found { self.new.found ≡ self.old.found }
        ensures passes { ReadConsumes self.old.rest self.new.rest result buf.new }
        ensures counts { OnErr result (self.new.faults ≡ min (self.old.faults + 1) (2 ^ 64 - 1)) }

        // What every shelf promises.
        ensures cause { HasCause self.old.faults self.new.faults result }
        ensures asked { self.new.asked ≡ self.old.asked }
        ensures bad { self.new.bad ≡ (self.old.bad || is_err result) }
        ensures within { IfOk result (λ n. n ≤ length buf.old) }
    {
        let Some(file) = &mut self.file else {
            return Ok(0);
        };
        match read_some(file, buf) {
            Ok(n) => Ok(n),
            Err(Failed) => Err(self.fail()),
        }
    }

    /// What the system says of the file found last.
    fn size_hint(&self) -> u64 {
        match &self.file {
            Some(file) => match file.metadata() {
                Ok(metadata) => metadata.len(),
                Err(_) => 0,
            },
            None => 0,
        }
    }

    /// Random bytes of the system.
    fn hash_seed(&self) -> Option<u64> {
        let mut bytes = [0; 8];
        self.rt.fill_bytes(&mut bytes).ok()?;
        Some(u64::from_le_bytes(bytes))
    }
}

#[cfg(test)]
mod tests;
