//! Triples in numbers.

ghost use Rattle.std.specs.Prelude.{◌≡◌, IfOk, map};
ghost use Rattle.term_list.specs.Triples.{terms_of};
ghost use Rattle.term_table.specs.Numbering.{place_of};
ghost use Rattle.key_file.specs.Numbered.{row_of};
ghost use Rattle.proof_check.specs.Rows.{IsGraphInNumbers};

use gk_base::NoMemory;
use std::alloc::Global;
use term_list::Triples;
use term_table::Names;

/// How many names can be numbered, which is by four bytes.
pub(crate) const MOST_NUMBERED: usize = 4294967296;

/// Triples in numbers, as `check_rows` takes them.
#[derive(Drop)]
pub(crate) struct NumberedTriples {
    pub(crate) names: Names,
    pub(crate) rows: Vec<[u32; 3]>,
}

/// The rows of triples, of which these are the terms' numbers.
fn rows_of(
    alloc: Global,
    names: &Names,
    triples: &Triples,
    numbers: &[u32],
) -> Result<Vec<[u32; 3]>, NoMemory>
    requires { numbers.now ≡ map (place_of names.now) (terms_of triples.now) }
    ensures { IfOk result (λ rows. rows.items ≡ map (row_of names.now) triples.now) }
{
    let _count = numbers.len();
    let mut rows = Vec::with_capacity(alloc, triples.len())?;
    for place in 0..triples.len() {
        let at = 3 * place;
        rows.push([numbers[at], numbers[at + 1], numbers[at + 2]])?;
    }
    Ok(rows)
}

/// Triples in numbers. `NoMemory` comes also where they have more terms than can be numbered.
pub(crate) fn in_numbers(alloc: Global, triples: &Triples) -> Result<NumberedTriples, NoMemory>
    ensures { IfOk result (λ graph. IsGraphInNumbers graph.names graph.rows.items triples.now) }
{
    let terms = triples.terms();
    if terms.len() >= MOST_NUMBERED {
        return Err(NoMemory);
    }
    let mut names = Names::new(alloc);
    let numbers = names.intern_all(terms)?;
    let rows = rows_of(alloc, &names, triples, &numbers)?;
    Ok(NumberedTriples { names, rows })
}
