//! For each name the groups that have it among their images.

ghost use Rattle.std.specs.Prelude.{[], ◌≡◌, ◌<◌, ◌≤◌, ℕ, Contains, IfOk, IsTrue, OnOk, length};
ghost use Rattle.list_pool.specs.Pool.{list_at};
ghost use Rattle.signature_chase.specs.Owned.{LeadsBack, chain};
ghost use Rattle.signature_chase.specs.Owning.{PutsInto};

use crate::queue::Queue;
use gk_base::NoMemory;
use std::alloc::Global;
use std::marker::Model;

/// A group that has a name among its images, and the number behind the place of the next one of that name, or 0.
#[derive(Clone, Copy)]
struct Owner {
    group: u32,
    next: u32,
}

/// For each name a list of groups. A name takes 4 bytes, and a group in a list 8. Contracts see the lists.
#[derive(Drop)]
pub struct Owners {
    /// The number behind the place of each name's first owner, or 0.
    heads: Vec<u32>,
    owners: Vec<Owner>,
}

impl Model for Owners {
    ghost use Rattle.std.specs.Prelude.{List, ℕ};
    ghost use Rattle.signature_chase.specs.Owned.{AreOwners, chains};

    ghost Value = { List (List ℕ) };

    ghost view = { λ o. chains o.heads.items o.owners.items };

    ghost invariant = { λ o. AreOwners o.heads.items o.owners.items };
}

/// Lets the groups of a chain of owners wait.
fn queue_chain(owners: &[Owner], head: u32, queue: &mut Queue)
    requires back { LeadsBack owners.now }
    requires head { head ≤ length owners.now }
    requires groups { (g : ℕ) → Contains (chain owners.now (length owners.now) head) g → g < queue.old.count }
    ensures woken { (g : ℕ) → Contains (chain owners.now (length owners.now) head) g → Contains queue.new.list g }
    ensures kept { (g : ℕ) → Contains queue.old.list g → Contains queue.new.list g }
    ensures count { queue.new.count ≡ queue.old.count }
{
    let mut at = head;
    while at > 0 {
        let owner = owners[at as usize - 1];
        queue.push(owner.group);
        at = owner.next;
    }
}

impl Owners {
    /// An empty list for each name below a number.
    pub fn new(alloc: Global, names: u32) -> Result<Owners, NoMemory>
        ensures count { IfOk result (λ o. length o ≡ names) }
        ensures empty { IfOk result (λ o. (n : ℕ) → list_at o n ≡ []) }
    {
        let heads = vec![in alloc; 0u32; names as usize]?;
        Ok(Owners {
            heads,
            owners: Vec::new(alloc),
        })
    }

    /// Whether the first group in a name's list is this one.
    fn begins_with(&self, name: u32, group: u32) -> bool
        requires { name < length self.now }
        ensures { IsTrue result → Contains (list_at self.now name) group }
    {
        let head = self.heads[name as usize];
        head > 0 && self.owners[head as usize - 1].group == group
    }

    /// Puts a group into the list of a name, where it is not the first already. So a group that is put into lists for all of
    /// its images at a stretch stands in each once.
    pub fn add(&mut self, name: u32, group: u32) -> Result<(), NoMemory>
        requires { name < length self.old }
        ensures { OnOk result (PutsInto self.old self.new group (λ m. m ≡ name)) }
    {
        if self.begins_with(name, group) {
            return Ok(());
        }
        if self.owners.len() >= u32::MAX as usize {
            return Err(NoMemory);
        }
        let next = self.heads[name as usize];
        self.owners.push(Owner { group, next })?;
        self.heads[name as usize] = self.owners.len() as u32;
        Ok(())
    }

    /// Lets all groups of a name's list wait.
    pub fn queue_all(&self, name: u32, queue: &mut Queue)
        requires name { name < length self.now }
        requires groups { (g : ℕ) → Contains (list_at self.now name) g → g < queue.old.count }
        ensures woken { (g : ℕ) → Contains (list_at self.now name) g → Contains queue.new.list g }
        ensures kept { (g : ℕ) → Contains queue.old.list g → Contains queue.new.list g }
        ensures count { queue.new.count ≡ queue.old.count }
    {
        let head = self.heads[name as usize];
        queue_chain(&self.owners, head, queue);
    }
}
