//! A shelf in memory that never fails.

ghost use Rattle.std.specs.Prelude.{◌≡◌, Some, None, [], false};
ghost use Rattle.gk_io.specs.Files.{contents_of};

use crate::held_files::HeldFiles;
use crate::{Failed, Shelf};
use gk_base::Text;
use std::marker::Model;

/// Files in memory. A name that no file has is an empty file, and no call fails. Of several files with one name
/// the first counts.
#[derive(Drop)]
pub struct SureShelf {
    held: HeldFiles,
    asked: Option<Text>,
}

impl Model for SureShelf {
    ghost use Rattle.gk_io.specs.SureShelf as sure;

    ghost Value = { sure.SureShelf };

    ghost view = { λ s. record { files = s.held.files; rest = s.held.rest; asked = s.asked } };
}

impl SureShelf {
    /// A shelf of these files, by name and content. It takes no memory.
    pub fn new(files: Vec<(Text, Vec<u8>)>) -> SureShelf
        ensures files { result.files ≡ contents_of files.items }
        ensures rest { result.rest ≡ [] }
        ensures asked { result.asked ≡ None }
    {
        SureShelf {
            held: HeldFiles::new(files),
            asked: None,
        }
    }
}

impl Shelf for SureShelf {
    ghost faults = { λ s. 0 };

    ghost asked = { λ s. s.asked };

    ghost bad = { λ s. false };

    ghost held = { λ s. Some s.files };

    ghost rest = { λ s. Some s.rest };

    fn find(&mut self, name: Text) -> Result<(), Failed> {
        if !self.held.find(name.bytes()) {
            self.held.close();
        }
        self.asked = Some(name);
        Ok(())
    }

    fn read(&mut self, buf: &mut [u8]) -> Result<usize, Failed> {
        Ok(self.held.read(buf, usize::MAX))
    }
}
