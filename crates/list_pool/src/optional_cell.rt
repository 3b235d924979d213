//! The number of a cell, or none.

ghost use Rattle.std.specs.Prelude.{◌≡◌, ◌+◌, ◌<◌, ◌^◌, None};
ghost use Rattle.std.specs.Option.{ForSome};

use std::marker::Model;

/// An `Option<u32>` below the last number, in four bytes: the last number stands for none. Cells are read in no order, so
/// what they hold is kept small.
#[derive(Clone, Copy)]
pub struct OptionalCell {
    number: u32,
}

impl Model for OptionalCell {
    ghost use Rattle.std.specs.Prelude.{Option, ℕ};

    ghost Value = { Option ℕ };

    ghost use Rattle.list_pool.specs.OptionalCell.{cell_of, number_of, number_again};

    ghost view = { λ o. cell_of o.number };

    ghost inverse = { λ cell. record { number = number_of cell } };

    ghost inverse_ok = { λ o h. number_again o };
}

impl OptionalCell {
    /// No cell.
    #[inline]
    pub fn none() -> OptionalCell
        ensures { result ≡ None }
    {
        OptionalCell { number: u32::MAX }
    }

    /// This cell, or none.
    #[inline]
    pub fn new(cell: Option<u32>) -> OptionalCell
        requires { ForSome cell (λ c. c + 1 < 2 ^ 32) }
        ensures { result ≡ cell }
    {
        match cell {
            None => OptionalCell { number: u32::MAX },
            Some(number) => OptionalCell { number },
        }
    }

    /// The cell's number, if there is a cell.
    #[inline]
    pub fn get(self) -> Option<u32>
        ensures { result ≡ self }
    {
        if self.number == u32::MAX {
            None
        } else {
            Some(self.number)
        }
    }
}
