//! Members whose texts stand one behind another.

ghost use Rattle.std.specs.Prelude.{◌≡◌, ◌∷◌, ◌++◌, [], OnOk};
ghost use Rattle.term_text.specs.CanonicalText.{term_text};

use crate::canonical::put_lent_term;
use crate::lent_text::LentText;
use crate::member::Member;
use gk_base::NoMemory;
use std::alloc::Global;
use std::marker::Model;
use term_list::TermRef;

/// Where a member's text begins and ends among others, and the member's label.
#[derive(Clone, Copy)]
pub struct TextPlace {
    pub from: usize,
    pub to: usize,
    pub label: u32,
}

/// Members whose texts stand one behind another, so that many texts take one block of memory. Contracts see the members.
#[derive(Drop)]
pub struct MemberTexts {
    bytes: Vec<u8>,
    places: Vec<TextPlace>,
}

impl Model for MemberTexts {
    ghost use Rattle.std.specs.Prelude.{List};
    ghost use Rattle.term_text.specs.declared.member.Member.{Member};
    ghost use Rattle.term_text.specs.MemberTexts.{members_of, AreWithin};

    ghost Value = { List Member };

    ghost view = { λ t. members_of t.bytes.items t.places.items };

    ghost invariant = { λ t. AreWithin t.bytes.items t.places.items };
}

impl MemberTexts {
    /// No member. It takes no memory.
    pub fn new(alloc: Global) -> MemberTexts
        ensures { result ≡ [] }
    {
        MemberTexts {
            bytes: Vec::new(alloc),
            places: Vec::new(alloc),
        }
    }

    /// Adds a member with this label, whose text is the canonical one of a term.
    pub fn push(&mut self, term: &TermRef<'_>, label: u32) -> Result<(), NoMemory>
        ensures { OnOk result (self.new ≡ self.old ++ (record { text = term_text term.now; label = label }) ∷ []) }
    {
        let from = self.bytes.len();
        put_lent_term(&mut self.bytes, term)?;
        let to = self.bytes.len();
        self.places.push(TextPlace { from, to, label })?;
        Ok(())
    }

    /// Appends the members, with their texts lent.
    pub fn lend<'a>(&'a self, members: &mut Vec<Member<'a>>) -> Result<(), NoMemory>
        ensures { OnOk result (members.new.items ≡ members.old.items ++ self.now) }
    {
        for number in 0..self.places.len() {
            let place = self.places[number];
            let text = LentText::new(&self.bytes[place.from..place.to]);
            members.push(Member {
                text,
                label: place.label,
            })?;
        }
        Ok(())
    }
}
