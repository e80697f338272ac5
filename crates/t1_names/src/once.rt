//! Each name once.

ghost use Rattle.std.specs.Prelude.{◌≡◌, IfOk, map, string_bytes};
ghost use Rattle.t1_names.specs.Once.{each_once};

use indexmap::IndexSet;
use std::alloc::{AllocError, Global};

/// Each of these names once, in the order of their first places.
pub fn each_once(alloc: Global, names: Vec<String>) -> Result<Vec<String>, AllocError>
    ensures { IfOk result (λ kept. map string_bytes kept.items ≡ each_once (map string_bytes names.items)) }
{
    let mut kept = IndexSet::new(alloc);
    for name in names {
        kept.insert(name)?;
    }
    names_of(alloc, kept)
}

/// The names of a set, in its order.
fn names_of(alloc: Global, set: IndexSet<String>) -> Result<Vec<String>, AllocError>
    ensures { IfOk result (λ names. names.items ≡ set.keys) }
{
    set.into_iter().collect(alloc)
}
