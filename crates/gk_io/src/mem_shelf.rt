//! A shelf in memory that gives little at once, and fails when it is told to.

ghost use Rattle.std.specs.Prelude.{◌≡◌, ◌<◌, ◌≤◌, ◌+◌, ◌-◌, ◌^◌, ◌||◌, ◌↔◌, ◌⊎◌, [], Some, None, false, is_err, IfOk, OnOk, OnErr, IsErr, IsTrue, Contains, length, min};
ghost use Rattle.gk_io.specs.Cause.{HasCause};
ghost use Rattle.gk_io.specs.Files.{bytes_of, TakesNext, contents_of, has_file};

use crate::calls::Calls;
use crate::held_files::HeldFiles;
use crate::{Failed, Shelf};
use gk_base::Text;
use std::marker::Model;

/// Files in memory. It reads at most so many bytes at once, and fails at the calls that are listed and at a name
/// that no file has. Of several files with one name the first counts.
#[derive(Drop)]
pub struct MemShelf {
    held: HeldFiles,
    asked: Option<Text>,
    bad: bool,
    /// The most that one read gives.
    most: usize,
    calls: Calls,
}

impl Model for MemShelf {
    ghost use Rattle.std.specs.Prelude.{◌<◌};
    ghost use Rattle.gk_io.specs.MemShelf as mem;

    ghost Value = { mem.MemShelf };

    ghost view = { λ s. record {
      files = s.held.files;
      rest = s.held.rest;
      asked = s.asked;
      bad = s.bad;
      most = s.most;
      fail = s.calls.fail.items;
      calls = s.calls.number;
      faults = s.calls.faults;
    } };

    ghost invariant = { λ s. 0 < s.most };
}

impl MemShelf {
    /// A shelf of these files, by name and content, which gives at most `most` bytes in one read. Its calls of
    /// `find` and `read` are numbered together from 1, and those with a number in `fail` answer `Failed`. It takes
    /// no memory.
    pub fn new(files: Vec<(Text, Vec<u8>)>, most: usize, fail: Vec<u64>) -> MemShelf
        requires { 0 < most }
        ensures files { result.files ≡ contents_of files.items }
        ensures rest { result.rest ≡ [] }
        ensures asked { result.asked ≡ None }
        ensures bad { result.bad ≡ false }
        ensures most { result.most ≡ most }
        ensures fail { result.fail ≡ fail.items }
        ensures calls { result.calls ≡ 0 }
        ensures faults { result.faults ≡ 0 }
    {
        MemShelf {
            held: HeldFiles::new(files),
            asked: None,
            bad: false,
            most,
            calls: Calls::new(fail),
        }
    }
}

impl Shelf for MemShelf {
    ghost faults = { λ s. s.faults };

    ghost asked = { λ s. s.asked };

    ghost bad = { λ s. s.bad };

    ghost held = { λ s. Some s.files };

    ghost rest = { λ s. Some s.rest };

    fn find(&mut self, name: Text) -> Result<(), Failed>
        ensures calls { self.new.calls ≡ min (self.old.calls + 1) (2 ^ 64 - 1) }
        ensures fails { IsErr result ↔ (Contains self.old.fail self.new.calls ⊎ (has_file self.old.files name ≡ false)) }
        ensures counts { OnErr result (self.new.faults ≡ min (self.old.faults + 1) (2 ^ 64 - 1)) }
        ensures most { self.new.most ≡ self.old.most }
        ensures fail { self.new.fail ≡ self.old.fail }

        // What every shelf promises.
        ensures cause { HasCause self.old.faults self.new.faults result }
        ensures asked { self.new.asked ≡ Some name }
        ensures bad { IsTrue self.new.bad ↔ IsErr result }
        ensures held { self.new.files ≡ self.old.files }
        ensures found { OnOk result (self.new.rest ≡ bytes_of self.old.files name) }
        ensures err { OnErr result (self.new.rest ≡ self.old.rest) }
    {
        let failed = self.calls.begin() || !self.held.find(name.bytes());
        self.asked = Some(name);
        self.bad = failed;
        if failed {
            self.calls.count_failure();
            return Err(Failed);
        }
        Ok(())
    }

    fn read(&mut self, buf: &mut [u8]) -> Result<usize, Failed>
        ensures calls { self.new.calls ≡ min (self.old.calls + 1) (2 ^ 64 - 1) }
        ensures fails { IsErr result ↔ Contains self.old.fail self.new.calls }
        ensures count { IfOk result (λ n. n ≡ min (length self.old.rest) (min (length buf.old) self.old.most)) }
        ensures counts { OnErr result (self.new.faults ≡ min (self.old.faults + 1) (2 ^ 64 - 1)) }
        ensures most { self.new.most ≡ self.old.most }
        ensures fail { self.new.fail ≡ self.old.fail }

        // What every shelf promises.
        ensures cause { HasCause self.old.faults self.new.faults result }
        ensures asked { self.new.asked ≡ self.old.asked }
        ensures bad { self.new.bad ≡ (self.old.bad || is_err result) }
        ensures held { self.new.files ≡ self.old.files }
        ensures within { IfOk result (λ n. n ≤ length buf.old) }
        ensures bytes { IfOk result (λ n. TakesNext (length buf.old) n self.old.rest self.new.rest buf.new) }
        ensures err { OnErr result (self.new.rest ≡ self.old.rest) }
    {
        if self.calls.begin() {
            self.bad = true;
            self.calls.count_failure();
            return Err(Failed);
        }
        Ok(self.held.read(buf, self.most))
    }
}
