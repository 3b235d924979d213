//! One group.

ghost use Rattle.std.specs.Prelude.{◌≡◌, ◌<◌, ◌^◌, length, drop, slice_index};
ghost use Rattle.valuation_groups.specs.Groups.{row_in};

use crate::cells::row_of;
use std::marker::Model;

/// The rows of one key that have the same values. A row is a name and, behind it, its images. Contracts see the key, the
/// values and the rows.
#[derive(Drop)]
pub struct Group<'a> {
    pub(crate) key: u32,
    pub(crate) values: &'a [u32],
    pub(crate) image_count: usize,
    pub(crate) count: u32,
    pub(crate) cells: &'a [u32],
}

impl<'a> Model for Group<'a> {
    ghost use Rattle.std.specs.Prelude.{◌≡◌, ◌<◌, ◌+◌, ◌*◌, ◌^◌, length};
    ghost use Rattle.valuation_groups.specs.Groups.{GroupShape};
    ghost use Rattle.valuation_groups.specs.Cells.{rows_of};

    ghost Value = { GroupShape };

    ghost view = { λ g. record { key = g.key; values = g.values.now; rows = rows_of g.cells.now (g.image_count + 1) g.count } };

    ghost invariant = { λ g. (length g.cells.now ≡ g.count * (g.image_count + 1)) × (g.image_count < 2 ^ 32) };
}

impl<'a> Group<'a> {
    /// The number of the key.
    pub fn key(&self) -> u32
        ensures { result ≡ self.now.key }
    {
        self.key
    }

    /// The values of all rows.
    pub fn values(&self) -> &'a [u32]
        ensures { result.now ≡ self.now.values }
    {
        self.values
    }

    /// How many rows there are.
    pub fn len(&self) -> usize
        ensures length { result ≡ length self.now.rows }
        ensures few { result < 2 ^ 32 }
    {
        self.count as usize
    }

    /// A row: a name and its images. Behind the last row there is nothing.
    pub fn row(&self, row: usize) -> &'a [u32]
        ensures row { result.now ≡ row_in self.now row }
        ensures named { row < length self.now.rows → 0 < length result.now }
    {
        row_of(self.cells, self.image_count + 1, row)
    }

    /// The name of a row.
    pub fn name(&self, row: usize) -> u32
        requires { row < length self.now.rows }
        ensures { result ≡ slice_index (row_in self.now row) 0 }
    {
        self.row(row)[0]
    }

    /// The images of a row. Behind the last row there are none.
    pub fn images_of(&self, row: usize) -> &'a [u32]
        ensures { result.now ≡ drop 1 (row_in self.now row) }
    {
        let row = self.row(row);
        row.get(1..).unwrap_or(row)
    }
}
