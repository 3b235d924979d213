//! The plans of all keys, in the order of their patterns.

ghost use Rattle.std.specs.Prelude.{IfOk};
ghost use Rattle.paired_search.specs.Plans.{ArePlans};

use chase_laws::Pattern;
use gk_base::NoMemory;
use key_plan::Plan;
use std::alloc::Global;

/// The plan of each pattern, in the patterns' order: what `search` takes.
pub fn plan_all(alloc: Global, patterns: &[Pattern]) -> Result<Vec<Plan>, NoMemory>
    ensures { IfOk result (λ v. ArePlans patterns.now v.items) }
{
    let mut list = Vec::with_capacity(alloc, patterns.len())?;
    for pattern in patterns {
        list.push(Plan::new(alloc, pattern)?)?;
    }
    Ok(list)
}
