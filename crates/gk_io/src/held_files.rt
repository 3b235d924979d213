//! Files that lie in memory, one of which is read.

ghost use Rattle.std.specs.Prelude.{◌≡◌, ◌<◌, ◌↔◌, [], length, min, IsTrue};
ghost use Rattle.std.specs.Bool.{OnTrue, OnFalse};
ghost use Rattle.gk_io.specs.Files.{bytes_of, TakesNext, contents_of, has_file};
ghost use Rattle.gk_io.specs.HeldFiles.{rest_of};

use gk_base::Text;
use std::marker::Model;

/// Files with their names, and how far one of them was read. Of several files with one name the first counts.
#[derive(Drop)]
pub(crate) struct HeldFiles {
    files: Vec<(Text, Vec<u8>)>,
    /// The place of the file that is read. Past the last file there is nothing to read.
    place: usize,
    /// How many of its bytes were read.
    at: usize,
}

impl Model for HeldFiles {
    ghost use Rattle.std.specs.Prelude.{◌≤◌, length};
    ghost use Rattle.gk_io.specs.Files.{contents_of};
    ghost use Rattle.gk_io.specs.HeldFiles as held;

    ghost Value = { held.HeldFiles };

    ghost view = { λ h. record { files = contents_of h.files.items; rest = held.rest_of h.files.items h.place h.at } };

    ghost invariant = { λ h. h.at ≤ length (held.rest_of h.files.items h.place 0) };
}

/// The place of the first file with this name, and past the last file where there is none.
fn place_of(files: &[(Text, Vec<u8>)], name: &[u8]) -> usize
    ensures bytes { bytes_of (contents_of files.now) name.now ≡ rest_of files.now result 0 }
    ensures found { IsTrue (has_file (contents_of files.now) name.now) ↔ (result < length files.now) }
{
    for (place, file) in files.iter().enumerate() {
        if file.0.bytes() == name {
            return place;
        }
    }
    files.len()
}

impl HeldFiles {
    /// These files, with nothing to read so far.
    pub(crate) fn new(files: Vec<(Text, Vec<u8>)>) -> HeldFiles
        ensures files { result.files ≡ contents_of files.items }
        ensures rest { result.rest ≡ [] }
    {
        let place = files.len();
        HeldFiles {
            files,
            place,
            at: 0,
        }
    }

    /// Turns to the file of this name. Where there is none it answers false, and the file before stays.
    pub(crate) fn find(&mut self, name: &[u8]) -> bool
        ensures files { self.new.files ≡ self.old.files }
        ensures found { result ≡ has_file self.old.files name.now }
        ensures turned { OnTrue result (self.new.rest ≡ bytes_of self.old.files name.now) }
        ensures nothing { OnFalse result (bytes_of self.old.files name.now ≡ []) }
        ensures stays { OnFalse result (self.new.rest ≡ self.old.rest) }
    {
        let place = place_of(&self.files, name);
        if place >= self.files.len() {
            return false;
        }
        self.place = place;
        self.at = 0;
        true
    }

    /// Leaves nothing to read.
    pub(crate) fn close(&mut self)
        ensures files { self.new.files ≡ self.old.files }
        ensures rest { self.new.rest ≡ [] }
    {
        self.place = self.files.len();
        self.at = 0;
    }

    /// Reads on, at most this many bytes.
    pub(crate) fn read(&mut self, buf: &mut [u8], most: usize) -> usize
        requires { 0 < most }
        ensures files { self.new.files ≡ self.old.files }
        ensures bytes { TakesNext (length buf.old) result self.old.rest self.new.rest buf.new }
        ensures count { result ≡ min (length self.old.rest) (min (length buf.old) most) }
    {
        if self.place >= self.files.len() {
            return 0;
        }
        let rest = &self.files[self.place].1[self.at..];
        let count = rest.len().min(buf.len()).min(most);
        buf[..count].copy_from_slice(&rest[..count]);
        self.at += count;
        count
    }
}
