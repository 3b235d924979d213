//! Which of two labels stays when their classes become one.

ghost use Rattle.std.specs.Prelude.{◌≡◌, ◌<◌, ◌==◌, ◌||◌, ◌&&◌, nat_lt, length, slice_index, if◌then◌else◌};

/// Whether the first of two labels stays: that of the larger class, and at a tie the smaller label.
fn first_stays(sizes: &[u32], first: u32, second: u32) -> bool
    requires first { first < length sizes.now }
    requires second { second < length sizes.now }
    ensures { let x = slice_index sizes.now first in let y = slice_index sizes.now second in
        result ≡ (nat_lt y x || (x == y && nat_lt first second)) }
{
    let x = sizes[first as usize];
    let y = sizes[second as usize];
    y < x || (x == y && first < second)
}

/// The one of two labels that stays, and the one that goes.
pub fn stay_and_go(sizes: &[u32], first: u32, second: u32) -> (u32, u32)
    requires first { first < length sizes.now }
    requires second { second < length sizes.now }
    ensures { let x = slice_index sizes.now first in let y = slice_index sizes.now second in
        result ≡ (if nat_lt y x || (x == y && nat_lt first second) then (first, second) else (second, first)) }
{
    if first_stays(sizes, first, second) {
        (first, second)
    } else {
        (second, first)
    }
}
