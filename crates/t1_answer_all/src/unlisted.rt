//! What of a list of fonts couldn't be listed, in the forms that other programs read.

ghost use Rattle.std.specs.Prelude.{◌≡◌, map, replicate, string_bytes};
ghost use Rattle.t1_answer_all.specs.Unlisted.{GivesEach, is_whole, undecoded, unlisted_in, unsearched};
ghost use Rattle.t1_many.specs.Handing.{lost_of};

use std::alloc::Global;
use t1_forms::{Told, What};
use t1_io::Sink;
use t1_many::Lost;
use t1_printers::{Formatter, give};

/// What of a list of fonts couldn't be listed.
#[derive(Clone, Copy, Debug)]
pub struct Unlisted<'a> {
    /// How many names aren't UTF-8, and so are no names of files here.
    pub undecoded: usize,
    /// The folders that weren't searched whole.
    pub unsearched: &'a [String],
}

impl<'a> Unlisted<'a> {
    /// Whether all could be listed.
    pub fn is_empty(&self) -> bool
        ensures { result ≡ is_whole (unlisted_in self.now) }
    {
        self.undecoded == 0 && self.unsearched.is_empty()
    }
}

/// Gives a formatter what couldn't be listed: that each name that isn't UTF-8 was skipped, then the folders.
pub fn give_unlisted<T: Formatter, W: Sink>(
    alloc: Global,
    unlisted: Unlisted<'_>,
    formatter: &mut T,
    out: &mut W,
) -> Result<(), Lost>
    ensures { GivesEach T.writes (record { formatter = formatter.old; out = W.state out.old })
        (record { formatter = formatter.new; out = W.state out.new }) (unlisted_in unlisted.entry) (lost_of result) }
{
    give_undecoded(alloc, unlisted.undecoded, formatter, out)?;
    give_unsearched(alloc, unlisted.unsearched, formatter, out)
}

/// Gives a formatter so often that a name isn't UTF-8.
fn give_undecoded<T: Formatter, W: Sink>(
    alloc: Global,
    count: usize,
    formatter: &mut T,
    out: &mut W,
) -> Result<(), Lost>
    ensures { GivesEach T.writes (record { formatter = formatter.old; out = W.state out.old })
        (record { formatter = formatter.new; out = W.state out.new }) (replicate count undecoded) (lost_of result) }
{
    let told = Told {
        font: None,
        what: What::Unchecked(b"a name that is not UTF-8 is passed over"),
        line: b"t1check: a name that is not UTF-8 is passed over",
        reason: None,
    };
    for _time in 0..count {
        formatter.write(alloc, out, &told)?;
    }
    Ok(())
}

/// Gives a formatter the folders that weren't searched whole.
fn give_unsearched<T: Formatter, W: Sink>(
    alloc: Global,
    folders: &[String],
    formatter: &mut T,
    out: &mut W,
) -> Result<(), Lost>
    ensures { GivesEach T.writes (record { formatter = formatter.old; out = W.state out.old })
        (record { formatter = formatter.new; out = W.state out.new }) (map (λ folder. unsearched (string_bytes folder)) folders.now) (lost_of result) }
{
    for folder in folders {
        give(
            alloc,
            formatter,
            out,
            folder.as_bytes(),
            What::Unchecked(b"search failed"),
            b"t1check: search failed",
            None,
        )?;
    }
    Ok(())
}
