//! The owners of all groups' images.

ghost use Rattle.std.specs.Prelude.{◌<◌, ℕ, All, Contains, IfOk, OnOk, length, drop};
ghost use Rattle.valuation_groups.specs.Groups.{group_at, row_in};
ghost use Rattle.signature_chase.specs.Owning.{PutsInto};
ghost use Rattle.signature_chase.specs.Setting.{HasRowAt, IsNamedRow, AreOwnersOf};

use crate::owners::Owners;
use gk_base::NoMemory;
use std::alloc::Global;
use valuation_groups::{Group, ValuationGroups};

/// Puts a group into the lists of some images.
fn put_images(owners: &mut Owners, images: &[u32], place: u32) -> Result<(), NoMemory>
    requires { All (λ m. m < length owners.old) images.now }
    ensures { OnOk result (PutsInto owners.old owners.new place (Contains images.now)) }
{
    for image in images {
        owners.add(*image, place)?;
    }
    Ok(())
}

/// Puts a group into the lists of all its images.
fn put_group(owners: &mut Owners, group: &Group<'_>, place: u32) -> Result<(), NoMemory>
    requires { (i : ℕ) → i < length group.now.rows → IsNamedRow (length owners.old) (row_in group.now i) }
    ensures { OnOk result (PutsInto owners.old owners.new place (λ m. (i : ℕ) × (i < length group.now.rows) × Contains (drop 1 (row_in group.now i)) m)) }
{
    for row in 0..group.len() {
        put_images(owners, group.images_of(row), place)?;
    }
    Ok(())
}

/// For each name below a number the groups that have it among their images.
pub fn owners_of(alloc: Global, groups: &ValuationGroups, names: u32) -> Result<Owners, NoMemory>
    requires { (g i : ℕ) → HasRowAt groups.now g i → IsNamedRow names (row_in (group_at groups.now g) i) }
    ensures { IfOk result (AreOwnersOf groups.now names) }
{
    let mut owners = Owners::new(alloc, names)?;
    for place in 0..groups.len() {
        put_group(&mut owners, &groups.group(place), place as u32)?;
    }
    Ok(owners)
}
