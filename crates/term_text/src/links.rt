//! Which member follows which in its class.

ghost use Rattle.std.specs.Prelude.{◌<◌, ◌^◌, IfOk, length};
ghost use Rattle.term_text.specs.Lines.{IsLinked};

use crate::label_places::LabelPlaces;
use crate::member::Member;
use gk_base::NoMemory;
use std::alloc::Global;

/// The places of the members of each class, linked in their order.
#[derive(Drop)]
pub struct Links {
    /// At each member's place that of the next member with its label.
    pub next: Vec<Option<u32>>,
    /// At each label the place of the first member that has it.
    pub firsts: LabelPlaces,
}

/// Links the members that have one label. Labels below this number cost least.
pub fn link(alloc: Global, members: &[Member<'_>], labels: u32) -> Result<Links, NoMemory>
    requires few { length members.now < 2 ^ 32 }
    ensures { IfOk result (λ links. IsLinked links members.now) }
{
    let mut next = vec![in alloc; None; members.len()]?;
    let mut firsts = LabelPlaces::new(alloc, labels as usize)?;
    for place in (0..members.len()).rev() {
        next[place] = firsts.replace(members[place].label, place as u32)?;
    }
    Ok(Links { next, firsts })
}
