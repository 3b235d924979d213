//! Rows of one key.

ghost use Rattle.std.specs.Prelude.{[], ◌∷◌, ◌++◌, ◌≡◌, ◌<◌, ◌+◌, ◌^◌, OnErr, OnOk, length};
ghost use Rattle.valuation_groups.specs.Cells.{parts_in_row};
ghost use Rattle.valuation_groups.specs.Rows.{part_at, row_numbered, AreOfShape};

use crate::cells::{put, row_of};
use gk_base::NoMemory;
use std::alloc::Global;
use std::marker::Model;

/// The parts of valuations of one key, one row each: the values, the name at slot 0, and the images. All rows have as
/// many values and as many images. There are fewer than 2^32 rows. Contracts see the key, both counts, and the parts.
#[derive(Drop)]
pub struct ValuationRows {
    key: u32,
    value_count: usize,
    image_count: usize,
    count: u32,
    cells: Vec<u32>,
}

impl Model for ValuationRows {
    ghost use Rattle.std.specs.Prelude.{◌≡◌, ◌<◌, ◌+◌, ◌*◌, ◌^◌, length, map};
    ghost use Rattle.valuation_groups.specs.Rows.{KeyRows};
    ghost use Rattle.valuation_groups.specs.Cells.{parts_in_row, rows_of};

    ghost Value = { KeyRows };

    ghost view = { λ r. record {
      key = r.key;
      value_count = r.value_count;
      image_count = r.image_count;
      parts = map (parts_in_row r.key r.value_count) (rows_of r.cells.items (r.value_count + 1 + r.image_count) r.count);
    } };

    ghost invariant = { λ r. (length r.cells.items ≡ r.count * (r.value_count + 1 + r.image_count)) × (r.value_count + r.image_count < 2 ^ 32) };
}

impl ValuationRows {
    /// No rows, of a key with so many values and images.
    pub fn new(alloc: Global, key: u32, value_count: usize, image_count: usize) -> ValuationRows
        requires { value_count + image_count < 2 ^ 32 }
        ensures key { result.key ≡ key }
        ensures value_count { result.value_count ≡ value_count }
        ensures image_count { result.image_count ≡ image_count }
        ensures empty { result.parts ≡ [] }
    {
        ValuationRows {
            key,
            value_count,
            image_count,
            count: 0,
            cells: Vec::new(alloc),
        }
    }

    /// The number of the key.
    pub fn key(&self) -> u32
        ensures { result ≡ self.now.key }
    {
        self.key
    }

    /// How many values each row has.
    pub fn value_count(&self) -> usize
        ensures count { result ≡ self.now.value_count }
        ensures small { result < 2 ^ 32 }
    {
        self.value_count
    }

    /// How many images each row has.
    pub fn image_count(&self) -> usize
        ensures count { result ≡ self.now.image_count }
        ensures small { result < 2 ^ 32 }
    {
        self.image_count
    }

    /// How many cells a row takes.
    fn width(&self) -> usize
        ensures { result ≡ self.now.value_count + 1 + self.now.image_count }
    {
        self.value_count + 1 + self.image_count
    }

    /// How many rows there are, and what the type keeps of each.
    pub fn len(&self) -> usize
        ensures length { result ≡ length self.now.parts }
        ensures few { result < 2 ^ 32 }
        ensures shape { AreOfShape self.now }
    {
        self.count as usize
    }

    /// A whole row: the values, the name, the images. Behind the last row there is nothing.
    pub fn row(&self, row: usize) -> &[u32]
        ensures { result.now ≡ row_numbered self.now.parts row }
    {
        row_of(&self.cells, self.width(), row)
    }

    /// The cells of a row that is there.
    fn cells_of(&self, row: usize) -> &[u32]
        requires { row < length self.now.parts }
        ensures parts { part_at self.now.parts row ≡ parts_in_row self.now.key self.now.value_count result.now }
        ensures width { length result.now ≡ self.now.value_count + 1 + self.now.image_count }
    {
        row_of(&self.cells, self.width(), row)
    }

    /// The values of a row.
    pub fn values(&self, row: usize) -> &[u32]
        requires { row < length self.now.parts }
        ensures { result.now ≡ (part_at self.now.parts row).values }
    {
        let count = self.value_count();
        &self.cells_of(row)[..count]
    }

    /// The name of a row.
    pub fn name(&self, row: usize) -> u32
        requires { row < length self.now.parts }
        ensures { result ≡ (part_at self.now.parts row).name }
    {
        let place = self.value_count();
        self.cells_of(row)[place]
    }

    /// The images of a row.
    pub fn images(&self, row: usize) -> &[u32]
        requires { row < length self.now.parts }
        ensures { result.now ≡ (part_at self.now.parts row).images }
    {
        let from = self.value_count() + 1;
        &self.cells_of(row)[from..]
    }

    /// Adds a row at the end. After want of memory, and where there are 2^32 - 1 rows, the rows are as before.
    pub fn push(&mut self, values: &[u32], name: u32, images: &[u32]) -> Result<(), NoMemory>
        requires values { length values.now ≡ self.old.value_count }
        requires images { length images.now ≡ self.old.image_count }
        ensures ok { OnOk result (self.new ≡ record self.old {
          parts = self.old.parts ++
              (record { key = self.old.key; name = name; values = values.now; images = images.now }) ∷ [];
        }) }
        ensures err { OnErr result (self.new ≡ self.old) }
    {
        if self.count == u32::MAX {
            return Err(NoMemory);
        }
        put(&mut self.cells, values, name, images)?;
        self.count += 1;
        Ok(())
    }

    /// Adds the rows of another at the end. After want of memory, and where both have 2^32 rows or more, the rows are as
    /// before.
    pub fn append(&mut self, other: ValuationRows) -> Result<(), NoMemory>
        requires key { other.key ≡ self.old.key }
        requires values { other.value_count ≡ self.old.value_count }
        requires images { other.image_count ≡ self.old.image_count }
        ensures ok { OnOk result (self.new ≡ record self.old { parts = self.old.parts ++ other.parts }) }
        ensures err { OnErr result (self.new ≡ self.old) }
    {
        match self.count.checked_add(other.count) {
            None => Err(NoMemory),
            Some(count) => {
                self.cells.extend_from_slice(&other.cells)?;
                self.count = count;
                Ok(())
            }
        }
    }
}
