//! What words and settings give together.

ghost use Rattle.std.specs.Prelude.{◌≡◌, IfOk, map, option_map, string_bytes};
ghost use Rattle.t1_options.specs.Given.{given_value};
ghost use Rattle.t1_options.specs.Merged.{file_in, values_or};
ghost use Rattle.t1_options.specs.Settings.Reading.{settings_value};

use crate::checks::are_none;
use crate::given::Given;
use crate::settings::Settings;
use crate::texts::texts_of;
use std::alloc::{AllocError, Global};
use t1_run::borrowed;

/// The file of known faults that settings name. Where waivers are written there is no use for it.
pub(crate) fn file_in<'a>(given: &Given<'_>, settings: &'a Settings) -> Option<&'a str>
    ensures { option_map (λ s. s.now) result ≡ file_in (given_value given.now) (settings_value settings.now) }
{
    if given.write_waivers {
        None
    } else {
        borrowed(&settings.baseline)
    }
}

/// The values of the words, or else those of the settings.
pub(crate) fn values_or<'a>(
    alloc: Global,
    values: &[&'a str],
    others: &'a [String],
) -> Result<Vec<&'a str>, AllocError>
    ensures { IfOk result (λ found. map (λ s. s.now) found.items ≡ values_or (map (λ s. s.now) values.now) (map string_bytes others.now)) }
{
    if are_none(values) {
        texts_of(alloc, others)
    } else {
        values.to_vec(alloc)
    }
}
