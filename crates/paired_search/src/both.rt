//! Two ascending lists of names, walked at once: each name of either once, ascending. A loop that fills a view by them
//! asks for the least name, puts it into the view, and goes past it in both.

ghost use Rattle.std.specs.Prelude.{◌<◌, ◌⊎◌, length};
ghost use Rattle.paired_search.specs.Both.{IsLeastFrom, IsPast};

/// The least of the names that two ascending lists have from a place in each on. One of them has to have a name there.
pub fn least_from(first: &[u32], i: usize, second: &[u32], j: usize) -> u32
    requires { (i < length first.now) ⊎ (j < length second.now) }
    ensures { IsLeastFrom first.now i second.now j result }
{
    if i >= first.len() {
        return second[j];
    }
    if j < second.len() && second[j] < first[i] {
        return second[j];
    }
    first[i]
}

/// The place behind a name, where it stands at a place of the list, and else that place.
pub fn past(names: &[u32], at: usize, name: u32) -> usize
    ensures { IsPast names.now at name result }
{
    if at < names.len() && names[at] == name {
        at + 1
    } else {
        at
    }
}
