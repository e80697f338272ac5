//! What is given for each option.

ghost use Rattle.std.specs.Prelude.{◌≡◌, map, option_map};
ghost use Rattle.clap.specs.Words.{first_of, found_of, rows_of};
ghost use Rattle.t1_options.specs.Given.{given_in, given_value, is_in, values_in};

use clap::ArgMatches;

/// What the words say for each option: whether a flag was given, the last value of an option, all values of one that
/// adds.
#[derive(Clone, Copy)]
pub(crate) struct Given<'a> {
    pub(crate) quiet: bool,
    /// `-j`, which is gone.
    pub(crate) jobs: Option<&'a str>,
    pub(crate) edition: Option<&'a str>,
    pub(crate) only: &'a [&'a str],
    pub(crate) except: &'a [&'a str],
    pub(crate) level: &'a [&'a str],
    pub(crate) fail_on: &'a [&'a str],
    pub(crate) no_waivers: bool,
    pub(crate) write_waivers: bool,
    pub(crate) force: bool,
    pub(crate) baseline: Option<&'a str>,
    pub(crate) update_baseline: bool,
    pub(crate) files_from: &'a [&'a str],
    pub(crate) exclude: &'a [&'a str],
    pub(crate) shard: Option<&'a str>,
    pub(crate) format: Option<&'a str>,
    pub(crate) docs: Option<&'a str>,
    pub(crate) clean: bool,
    pub(crate) columns: Option<&'a str>,
    pub(crate) colour: bool,
    pub(crate) long: bool,
    pub(crate) reasons: bool,
    pub(crate) no_reasons: bool,
    pub(crate) no_settings: bool,
    pub(crate) explain: bool,
    pub(crate) version: bool,
    pub(crate) paths: &'a [&'a str],
}

/// What clap found for each option.
pub(crate) fn given_in<'a>(matches: &'a ArgMatches<'_>) -> Given<'a>
    ensures { given_value result ≡ given_in (rows_of (found_of matches.now)) }
{
    Given {
        quiet: is_in(matches, "quiet"),
        jobs: value_in(matches, "jobs"),
        edition: value_in(matches, "edition"),
        only: values_in(matches, "only"),
        except: values_in(matches, "except"),
        level: values_in(matches, "level"),
        fail_on: values_in(matches, "fail-on"),
        no_waivers: is_in(matches, "no-waivers"),
        write_waivers: is_in(matches, "write-waivers"),
        force: is_in(matches, "force"),
        baseline: value_in(matches, "baseline"),
        update_baseline: is_in(matches, "update-baseline"),
        files_from: values_in(matches, "files-from"),
        exclude: values_in(matches, "exclude"),
        shard: value_in(matches, "shard"),
        format: value_in(matches, "format"),
        docs: value_in(matches, "docs"),
        clean: is_in(matches, "clean"),
        columns: value_in(matches, "columns"),
        colour: is_in(matches, "colour"),
        long: is_in(matches, "long"),
        reasons: is_in(matches, "reasons"),
        no_reasons: is_in(matches, "no-reasons"),
        no_settings: is_in(matches, "no-settings"),
        explain: is_in(matches, "explain"),
        version: is_in(matches, "show-version"),
        paths: values_in(matches, "path"),
    }
}

/// Whether a flag was given.
fn is_in(matches: &ArgMatches<'_>, id: &str) -> bool
    ensures { result ≡ is_in (rows_of (found_of matches.now)) id.now }
{
    0 < matches.get_count(id)
}

/// The value of an option that has one.
fn value_in<'a>(matches: &'a ArgMatches<'_>, id: &str) -> Option<&'a str>
    ensures { option_map (λ s. s.now) result ≡ first_of id.now (rows_of (found_of matches.now)) }
{
    matches.get_str(id)
}

/// All values of an option.
fn values_in<'a>(matches: &'a ArgMatches<'_>, id: &str) -> &'a [&'a str]
    ensures { map (λ s. s.now) result.now ≡ values_in (rows_of (found_of matches.now)) id.now }
{
    matches.get_strs(id).unwrap_or(&[])
}
