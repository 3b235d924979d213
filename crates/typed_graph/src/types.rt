//! What a graph keeps of each name's types, so that most type tests are one look.

ghost use Rattle.std.specs.Prelude.{◌≡◌, ℕ, Contains, IfOk, IsSomeAnd};
ghost use Rattle.typed_graph.specs.Table.{TableHas};
ghost use Rattle.typed_graph.specs.Types.{IsTrueOf, AreTypes};

use crate::Index;
use gk_base::NoMemory;
use std::alloc::Global;

/// The types of a name: none, one alone, or several, which only the rows tell. It takes 8 bytes.
#[derive(Clone, Copy)]
pub(crate) enum TypesOf {
    Untyped,
    One(u32),
    Several,
}

impl TypesOf {
    /// What is kept of a list of types.
    fn listed(types: &[u32]) -> TypesOf
        ensures { IsTrueOf result (λ t. Contains types.now t) }
    {
        match types {
            [] => TypesOf::Untyped,
            [only] => TypesOf::One(*only),
            _ => TypesOf::Several,
        }
    }

    /// What is kept of the types of `n`, by the rows as subject, predicate, object.
    fn of(forward: &Index, rdf_type: Option<u32>, n: u32) -> TypesOf
        ensures { IsTrueOf result (λ t. IsSomeAnd rdf_type (λ p. TableHas forward.now n p t)) }
    {
        match rdf_type {
            Some(p) => TypesOf::listed(forward.find(n, p)),
            None => TypesOf::Untyped,
        }
    }
}

/// What is kept of the types of each number below `names`. Fails only for want of memory.
pub(crate) fn types_of_all(
    alloc: Global,
    forward: &Index,
    rdf_type: Option<u32>,
    names: u32,
) -> Result<Vec<TypesOf>, NoMemory>
    ensures { IfOk result (λ v. AreTypes forward.now rdf_type names v.items) }
{
    let mut types = Vec::with_capacity(alloc, names as usize)?;
    for n in 0..names {
        types.push(TypesOf::of(forward, rdf_type, n))?;
    }
    Ok(types)
}
