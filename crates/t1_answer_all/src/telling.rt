//! Prints on standard error what couldn't be listed.

ghost use Rattle.std.specs.Prelude.{map, replicate, string_bytes};
ghost use Rattle.std.specs.List.{concat, flat_map};
ghost use Rattle.t1_answer_all.specs.Telling.{undecoded_line, unlisted_text, unsearched_line};
ghost use Rattle.t1_io.specs.Devices.{Writes};

use crate::unlisted::Unlisted;
use t1_io::{Broken, Sink, put_all};
use t1_many::tell_unchecked;

/// Prints what couldn't be listed: names that aren't UTF-8, then folders that weren't searched whole, a line each.
pub fn tell_unlisted<E: Sink>(unlisted: Unlisted<'_>, errors: &mut E) -> Result<(), Broken>
    ensures { Writes (E.state errors.old) (E.state errors.new)
        (unlisted_text unlisted.entry.undecoded (map string_bytes unlisted.entry.unsearched.now)) result }
{
    tell_undecoded(unlisted.undecoded, errors)?;
    tell_unsearched(unlisted.unsearched, errors)
}

/// Prints so often that a name isn't UTF-8.
fn tell_undecoded<E: Sink>(count: usize, errors: &mut E) -> Result<(), Broken>
    ensures { Writes (E.state errors.old) (E.state errors.new) (concat (replicate count undecoded_line)) result }
{
    for _time in 0..count {
        put_all(
            errors,
            b"t1check-all: a name that is not UTF-8 is passed over\n",
        )?;
    }
    Ok(())
}

/// Prints which folders weren't searched whole.
fn tell_unsearched<E: Sink>(folders: &[String], errors: &mut E) -> Result<(), Broken>
    ensures { Writes (E.state errors.old) (E.state errors.new) (flat_map (λ folder. unsearched_line (string_bytes folder)) folders.now) result }
{
    for folder in folders {
        tell_unchecked(errors, folder.as_str(), "search failed")?;
    }
    Ok(())
}
