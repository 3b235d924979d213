//! One look at a group.

ghost use Rattle.std.specs.Prelude.{◌≡◌, ◌<◌, ℕ, Contains, OnOk, length};
ghost use Rattle.valuation_groups.specs.Groups.{group_at, row_in};
ghost use Rattle.signature_chase.specs.Settled.{IsSettled, image_labels, name_label};
ghost use Rattle.signature_chase.specs.Setting.{IsGroupOf, IsDerived};
ghost use Rattle.signature_chase.specs.Advance.{Advances};

use crate::leaders::find_leaders;
use crate::queue::Queue;
use crate::setting::Setting;
use chase_laws::laws::law_signature;
use class_book::Book;
use gk_base::NoMemory;
use valuation_groups::Group;

/// Enters two rows of a group whose images have the same labels, unless their names have one label already.
fn meet(
    setting: &Setting<'_>,
    group: &Group<'_>,
    left: usize,
    right: usize,
    book: &mut Book,
    queue: &mut Queue,
)
    requires group { IsGroupOf setting.now.graph setting.now.patterns group.now }
    requires left { left < length group.now.rows }
    requires right { right < length group.now.rows }
    requires derived { IsDerived setting.now.graph setting.now.patterns book.old }
    requires same { image_labels book.old.labels (row_in group.now left) ≡ image_labels book.old.labels (row_in group.now right) }
    requires count { queue.old.count ≡ length setting.now.groups }
    ensures derived { IsDerived setting.now.graph setting.now.patterns book.new }
    ensures advances { Advances setting.now.groups book.old book.new queue.old.list queue.new.list }
    ensures met { name_label book.new.labels (row_in group.now left) ≡ name_label book.new.labels (row_in group.now right) }
    ensures count { queue.new.count ≡ queue.old.count }
{
    law_signature();
    setting.holds();
    let a = group.name(left);
    let b = group.name(right);
    let first = book.label(a);
    let second = book.label(b);
    if first == second {
        return;
    }
    let entry = setting.entry_of(group, left, right);
    setting.enter(book, queue, entry);
}

/// Looks at a group: enters all rows whose images have the same labels, with their leaders. Labels change meanwhile, but
/// what was equal stays equal; and where an image of the group itself gets another label, the group waits again.
pub fn settle_group(
    setting: &Setting<'_>,
    place: u32,
    book: &mut Book,
    queue: &mut Queue,
    leaders: &mut Vec<u32>,
    keyed: &mut Vec<(u32, u32, u32)>,
) -> Result<(), NoMemory>
    requires place { place < length setting.now.groups }
    requires derived { IsDerived setting.now.graph setting.now.patterns book.old }
    requires count { queue.old.count ≡ length setting.now.groups }
    ensures derived { OnOk result (IsDerived setting.now.graph setting.now.patterns book.new) }
    ensures advances { OnOk result (Advances setting.now.groups book.old book.new queue.old.list queue.new.list) }
    ensures settled { OnOk result (¬ (Contains queue.new.list place) → IsSettled book.new.labels (group_at setting.now.groups place)) }
    ensures count { OnOk result (queue.new.count ≡ queue.old.count) }
{
    setting.holds();
    let group = setting.group(place);
    find_leaders(book, &group, leaders, keyed)?;
    for row in 0..group.len() {
        let leader = leaders[row] as usize;
        meet(setting, &group, leader, row, book, queue);
    }
    Ok(())
}
