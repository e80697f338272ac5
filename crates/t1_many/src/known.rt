//! How often kinds are known of a font.

ghost use Rattle.std.specs.Prelude.{◌≡◌, ℕ, List, IfOk};
ghost use Rattle.t1_many.specs.Counts.{kind_counts};
ghost use Rattle.t1_many.specs.Private.Counts.{AreKnown};

use crate::counts::Kinds;
use crate::kinds::{push_kind, push_two};
use indexmap::IndexMap;
use std::alloc::{AllocError, Global};

/// Known faults of many fonts.
pub trait Known {
    // How often a kind is known of a font, by the key `KIND FONT`.
    ghost counts: { Self → List ℕ → ℕ };

    /// How often a kind is known of a font, by the key `KIND FONT`, as in `H02 glyph A fonts/a.pfb`.
    fn count_of(&self, key: &[u8]) -> u64
        ensures { result ≡ counts self.now key.now };
}

/// How often the kinds that were found in a font are known of it.
pub(crate) fn known_counts<'a, K: Known>(
    alloc: Global,
    known: &K,
    name: &str,
    found: &Kinds<'a>,
) -> Result<Kinds<'a>, AllocError>
    ensures { IfOk result (λ counts. AreKnown (K.counts known.now) name.now (kind_counts found.now.entries) (kind_counts counts.entries)) }
{
    let mut counts = IndexMap::new(alloc);
    let mut key = Vec::new(alloc);
    for place in 0..found.len() {
        let Some((kind, _)) = found.get_index(place) else {
            break;
        };
        key.clear();
        push_kind(&mut key, kind)?;
        push_two(&mut key, b" ", name.as_bytes())?;
        counts.insert(*kind, known.count_of(key.as_slice()))?;
    }
    Ok(counts)
}
