//! The groups of all keys.

ghost use Rattle.std.specs.Prelude.{[], ◌∷◌, ◌++◌, ◌≡◌, ◌≢◌, ◌⊎◌, ◌<◌, ◌≤◌, ◌^◌, ℕ, All, Contains, OnOk, length};
ghost use Rattle.std.specs.List.{concat};
ghost use Rattle.valuation_groups.specs.Rows.{part_at, AreOfShape, AscendByValues};
ghost use Rattle.valuation_groups.specs.Groups.{GroupShape, group_at, listed_of, AreApart};
ghost use Rattle.valuation_groups.specs.Filling.{group_between, rows_between};

use crate::group::Group;
use crate::rows::ValuationRows;
use gk_base::NoMemory;
use std::alloc::Global;
use std::marker::Model;

/// Where a group lies.
#[derive(Clone, Copy)]
struct Head {
    key: u32,
    value_count: u32,
    image_count: u32,
    row_count: u32,
    first_value: usize,
    first_cell: usize,
}

/// Groups of rows: a group has the rows of one key that have the same values. There are fewer than 2^32 groups. A group
/// takes 32 bytes, and 4 for each of its values, each name and each image. Contracts see the list of groups.
#[derive(Drop)]
pub struct ValuationGroups {
    heads: Vec<Head>,
    values: Vec<u32>,
    cells: Vec<u32>,
}

impl Model for ValuationGroups {
    ghost use Rattle.std.specs.Prelude.{List, All, map, length, ◌<◌, ◌^◌};
    ghost use Rattle.valuation_groups.specs.Groups.{GroupShape};

    ghost Value = { List GroupShape };

    ghost use Rattle.valuation_groups.specs.Heads.{shape_of, IsWithin};

    ghost view = { λ g. map (shape_of g.values.items g.cells.items) g.heads.items };

    ghost invariant = { λ g. All (IsWithin (length g.values.items) (length g.cells.items)) g.heads.items × (length g.heads.items < 2 ^ 32) };
}

/// Where the rows end that have the same values as a row, and follow it.
fn end_of_run(rows: &ValuationRows, from: usize) -> usize
    requires { from < length rows.now.parts }
    ensures after { from < result }
    ensures within { result ≤ length rows.now.parts }
    ensures same { (k : ℕ) → from ≤ k → k < result → (part_at rows.now.parts k).values ≡ (part_at rows.now.parts from).values }
    ensures other { result < length rows.now.parts → (part_at rows.now.parts result).values ≢ (part_at rows.now.parts from).values }
{
    let len = rows.len();
    let mut end = from + 1;
    while end < len && rows.values(end) == rows.values(from) {
        end += 1;
    }
    end
}

/// Puts the names and images of some rows behind the cells. After want of memory there are no fewer cells than before.
fn put_rows(
    cells: &mut Vec<u32>,
    rows: &ValuationRows,
    from: usize,
    end: usize,
) -> Result<(), NoMemory>
    requires order { from ≤ end }
    requires within { end ≤ length rows.now.parts }
    ensures ok { OnOk result (cells.new.items ≡ cells.old.items ++ concat (rows_between rows.now.parts from end)) }
    ensures longer { length cells.old.items ≤ length cells.new.items }
{
    for row in from..end {
        cells.push(rows.name(row))?;
        cells.extend_from_slice(rows.images(row))?;
    }
    Ok(())
}

impl ValuationGroups {
    /// No groups.
    pub fn new(alloc: Global) -> ValuationGroups
        ensures { result ≡ [] }
    {
        ValuationGroups {
            heads: Vec::new(alloc),
            values: Vec::new(alloc),
            cells: Vec::new(alloc),
        }
    }

    /// How many groups there are.
    pub fn len(&self) -> usize
        ensures length { result ≡ length self.now }
        ensures few { result < 2 ^ 32 }
    {
        self.heads.len()
    }

    /// The group at a place.
    pub fn group(&self, place: usize) -> Group<'_>
        requires { place < length self.now }
        ensures { result ≡ group_at self.now place }
    {
        let head = self.heads[place];
        let image_count = head.image_count as usize;
        let values = &self.values[head.first_value..head.first_value + head.value_count as usize];
        let end = head.first_cell + head.row_count as usize * (image_count + 1);
        Group {
            key: head.key,
            values,
            image_count,
            count: head.row_count,
            cells: &self.cells[head.first_cell..end],
        }
    }

    /// Adds the rows from one up to another, which have the same values, as a group. After want of memory nothing is known of
    /// the groups.
    fn add_group(&mut self, rows: &ValuationRows, from: usize, end: usize) -> Result<(), NoMemory>
        requires some { from < end }
        requires within { end ≤ length rows.now.parts }
        requires few { length rows.now.parts < 2 ^ 32 }
        requires shape { AreOfShape rows.now }
        ensures { OnOk result (self.new ≡ self.old ++ group_between rows.now from end ∷ []) }
    {
        if self.heads.len() >= u32::MAX as usize {
            return Err(NoMemory);
        }
        let head = Head {
            key: rows.key(),
            value_count: rows.value_count() as u32,
            image_count: rows.image_count() as u32,
            row_count: (end - from) as u32,
            first_value: self.values.len(),
            first_cell: self.cells.len(),
        };
        self.values.extend_from_slice(rows.values(from))?;
        put_rows(&mut self.cells, rows, from, end)?;
        self.heads.push(head)?;
        Ok(())
    }

    /// Adds the rows of a key that has no group yet, equal values in one group. After want of memory, and where there would be
    /// 2^32 groups or more, nothing is known of the groups.
    pub fn add(&mut self, rows: &ValuationRows) -> Result<(), NoMemory>
        requires sorted { AscendByValues rows.now.parts }
        requires fresh { All (λ group. group.key ≢ rows.now.key) self.old }
        requires apart { AreApart self.old }
        ensures listed { OnOk result (listed_of self.new ≡ listed_of self.old ++ rows.now.parts) }
        ensures apart { OnOk result (AreApart self.new) }
        ensures keys { OnOk result ((group : GroupShape) → Contains self.new group → Contains self.old group ⊎ (group.key ≡ rows.now.key)) }
    {
        let mut from = 0;
        while from < rows.len() {
            let end = end_of_run(rows, from);
            self.add_group(rows, from, end)?;
            from = end;
        }
        Ok(())
    }
}
