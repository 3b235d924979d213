//! The keys of a file.

ghost use Rattle.std.specs.Prelude.{◌≡◌, ◌≢◌, ◌↔◌, IsTrue, ◌<◌, ◌≤◌, ◌*◌, [], ◌∷◌, ◌++◌, false, length, All, OnOk, OnErr};
ghost use Rattle.std.specs.List.{AllPairs};
ghost use Rattle.key_file.specs.Key.{IsKey};
ghost use Rattle.key_file.specs.KeyFile.{has_name};
ghost use Rattle.key_file.specs.Compile.{key_terms};

use crate::KeyDef;
use gk_base::NoMemory;
use std::alloc::Global;
use std::marker::Model;

/// The keys of a key file, in the file's order. Contracts see it as the list of the keys. The type keeps that there are
/// at most 64, and that their names are all different.
#[derive(Drop)]
pub struct KeyFile {
    keys: Vec<KeyDef>,
}

impl Model for KeyFile {
    ghost use Rattle.std.specs.Prelude.{List};
    ghost use Rattle.key_file.specs.KeyShape.{KeyShape};
    ghost use Rattle.key_file.specs.KeyFile.{IsKeyFile};

    ghost Value = { List KeyShape };

    ghost view = { λ f. f.keys.items };

    ghost invariant = { λ f. IsKeyFile f.keys.items };
}

impl KeyFile {
    /// No keys. It takes no memory.
    pub fn new(alloc: Global) -> KeyFile
        ensures { result ≡ [] }
    {
        KeyFile {
            keys: Vec::new(alloc),
        }
    }

    /// Adds a key at the end. After `NoMemory` the keys are as they were.
    pub fn push(&mut self, key: KeyDef) -> Result<(), NoMemory>
        requires few { length self.old < 64 }
        requires fresh { has_name self.old key.name ≡ false }
        ensures ok { OnOk result (self.new ≡ self.old ++ key ∷ []) }
        ensures err { OnErr result (self.new ≡ self.old) }
    {
        // The read lets the proof see that the key is valid.
        let _ = &key.name;
        self.keys.push(key)?;
        Ok(())
    }

    /// The keys, in the file's order.
    pub fn keys(&self) -> &[KeyDef]
        ensures keys { result.now ≡ self.now }
        ensures few { length self.now ≤ 64 }
        ensures names_differ { AllPairs (λ k l. k.name ≢ l.name) self.now }
        ensures valid { All IsKey self.now }
        ensures few_terms { length (key_terms self.now) ≤ 64 * 48 }
    {
        &self.keys
    }

    /// How many keys there are: at most 64.
    pub fn len(&self) -> usize
        ensures length { result ≡ length self.now }
        ensures few { result ≤ 64 }
    {
        self.keys.len()
    }

    /// Whether there is no key.
    pub fn is_empty(&self) -> bool
        ensures { IsTrue result ↔ (self.now ≡ []) }
    {
        self.keys.is_empty()
    }

    /// Whether a key has this name.
    pub fn has_name(&self, name: &[u8]) -> bool
        ensures { result ≡ has_name self.now name.now }
    {
        self.keys.iter().any(|key| key.name.bytes() == name)
    }
}
