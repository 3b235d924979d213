//! Two classes made one, in their labels, sizes and members. These take the parts of a book, and not the book: labels say
//! what the journal joins only once the identification is in it, and a call on a book would need that.

ghost use Rattle.std.specs.Prelude.{◌≡◌, ◌≢◌, ◌<◌, ◌+◌, ◌==◌, ℕ, All, length, slice_index, if◌then◌else◌};
ghost use Rattle.list_pool.specs.Counts.{times};
ghost use Rattle.list_pool.specs.Pool.{list_at, joined_lists};
ghost use Rattle.class_book.specs.Classes.{relabelled};
ghost use Rattle.class_book.specs.Roster.{IsRoster};

use list_pool::Pool;

/// Labels the `count` members of a class anew.
fn relabel(labels: &mut Vec<u32>, members: &Pool, from: u32, to: u32, count: u32)
    requires from { from < length members.now.lists }
    requires count { count ≡ length (list_at members.now.lists from) }
    requires range { All (λ node. node < length labels.old.items) (list_at members.now.lists from) }
    ensures count { length labels.new.items ≡ length labels.old.items }
    ensures moved { (k : ℕ) → k < length labels.old.items → slice_index labels.new.items k ≡
        (if times (list_at members.now.lists from) k == 0 then slice_index labels.old.items k else to) }
{
    let mut member = members.first(from);
    for done in 0..count {
        if let Some(node) = member {
            labels[node as usize] = to;
            member = members.next(from, node);
        }
    }
}

/// Puts the members of the class `from` to the end of the class `to`, whose label they get.
pub fn merge(labels: &mut Vec<u32>, sizes: &mut Vec<u32>, members: &mut Pool, to: u32, from: u32)
    requires roster { IsRoster labels.old.items sizes.old.items members.old.lists }
    requires to { to < length labels.old.items }
    requires from { from < length labels.old.items }
    requires apart { to ≢ from }
    ensures labels { labels.new.items ≡ relabelled labels.old.items from to }
    ensures members { members.new.lists ≡ joined_lists members.old.lists to from }
    ensures roster { IsRoster labels.new.items sizes.new.items members.new.lists }
{
    let count = sizes[from as usize];
    relabel(labels, members, from, to, count);
    members.splice(to, from);
    sizes[to as usize] += count;
    sizes[from as usize] = 0;
}
