//! The way between two names, part by part. The entry at which two names come together parts the way between them in two, so
//! a stack of parts is worked off whose places come out in order.

ghost use Rattle.std.specs.Prelude.{option_to_list, ◌∷◌, ◌≡◌, ◌<◌, ◌≤◌, ◌++◌, [], true, OnOk, OnErr, All, length};
ghost use Rattle.chase_laws.specs.Joined.{joined_by, links};
ghost use Rattle.term_text.specs.Appending.{BeginsWith};
ghost use Rattle.proof_graph.specs.Way.{way};
ghost use Rattle.proof_graph.specs.Tree.{AreTreesOf, never};
ghost use Rattle.proof_graph.specs.Parts.{first_part, second_part};

use crate::meeting::{Meeting, meet};
use crate::trees::Node;
use chase_laws::Entry;
use gk_base::NoMemory;
use std::alloc::Global;

/// A part of a way that is still to be found, and the place after it.
#[derive(Clone, Copy)]
struct Part {
    from: u32,
    to: u32,
    then: Option<u32>,
}

/// Puts a place at the end, if there is one.
fn put_some(places: &mut Vec<u32>, place: Option<u32>) -> Result<(), NoMemory>
    ensures ok { OnOk result (places.new.items ≡ places.old.items ++ option_to_list place) }
    ensures err { OnErr result (places.new.items ≡ places.old.items) }
{
    if let Some(place) = place {
        places.push(place)?;
    }
    Ok(())
}

/// Parts a part in two where its ends come together. The first of the two is on top.
fn divide(parts: &mut Vec<Part>, part: Part, meeting: Meeting) -> Result<(), NoMemory>
    ensures { OnOk result (parts.new.items ≡ parts.old.items ++ second_part part meeting ∷ first_part part meeting ∷ []) }
{
    parts.push(Part {
        from: meeting.far,
        to: part.to,
        then: part.then,
    })?;
    parts.push(Part {
        from: part.from,
        to: meeting.near,
        then: Some(meeting.place),
    })?;
    Ok(())
}

/// Puts the places of the way between two joined names at the end. After `NoMemory` some of them may have come there.
pub(crate) fn put_way(
    alloc: Global,
    journal: &[Entry],
    nodes: &[Node],
    from: u32,
    to: u32,
    places: &mut Vec<u32>,
) -> Result<(), NoMemory>
    requires trees { AreTreesOf (links journal.now) nodes.now (length journal.now) }
    requires ends { All (λ e. (e.a < length nodes.now) × (e.b < length nodes.now)) journal.now }
    requires from { from < length nodes.now }
    requires to { to < length nodes.now }
    requires small { length journal.now ≤ never }
    requires joined { joined_by journal.now from to ≡ true }
    ensures ok { OnOk result (places.new.items ≡ places.old.items ++ way (links journal.now) (length journal.now) from to) }
    ensures kept { BeginsWith places.old.items places.new.items }
{
    let mut parts = Vec::new(alloc);
    parts.push(Part {
        from,
        to,
        then: None,
    })?;
    while let Some(part) = parts.pop() {
        match meet(journal, nodes, part.from, part.to) {
            Some(meeting) => divide(&mut parts, part, meeting)?,
            None => put_some(places, part.then)?,
        }
    }
    Ok(())
}
