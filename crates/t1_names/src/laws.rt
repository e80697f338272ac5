//! Laws above the definitions: each is the contract of a function that does nothing.

ghost use Rattle.t1_names.specs.Laws.{DoubleStarMatchesAll, EachIsIncluded, EachIsKept, InputIsIncluded, InputIsNoFile, NoDotInFolders, NoDotInPaths, NoneIsTwice, OneList, OneReading, OneSearch, OneTrim, PlainIsItself, StarStopsAtSlashes};

/// Keeping each name once loses no name, adds none and leaves none twice.
#[tactic(auto, using(crate::proofs::OnceLaws::none_is_twice))]
pub fn each_name_is_once()
    ensures kept { EachIsKept }
    ensures once { NoneIsTwice }
{}

/// No glob that excludes names matches a name in the list of fonts, unless it is `-`.
pub fn each_name_is_included()
    ensures { EachIsIncluded }
{}

/// A word is trimmed in one way.
#[tactic(auto, using(crate::proofs::WordLaws::one_trim))]
pub fn trims_are_one()
    ensures { OneTrim }
{}

/// What is below folders is one thing, where each folder lists one thing.
#[tactic(auto, using(crate::proofs::FolderLaws::one_search))]
pub fn searches_are_one()
    ensures { OneSearch }
{}

/// Words make one list, where each word leads to a folder or doesn't, and each folder lists one thing.
pub fn lists_are_one()
    ensures { OneList }
{}

/// No file has the name `-`, which is standard input, and no glob excludes that.
#[tactic(auto, using(crate::proofs::WordLaws::input_is_no_file, crate::proofs::OnceLaws::input_is_included))]
pub fn input_stays_apart()
    ensures files { InputIsNoFile }
    ensures globs { InputIsIncluded }
{}

/// The names of fonts below a folder have no leading `./`: neither has a word that leads to a folder, nor the name of
/// what is in one.
pub fn names_have_no_dot()
    ensures folders { NoDotInFolders }
    ensures paths { NoDotInPaths }
{}

/// A text is read as one glob. `**` matches each name, `*` what has no slash, and a glob of plain characters just
/// itself.
#[tactic(auto, using(crate::proofs::GlobLaws::one_reading, crate::proofs::GlobLaws::double_star_matches, crate::proofs::GlobLaws::star_stops, crate::proofs::GlobLaws::plain_is_itself))]
pub fn globs_match()
    ensures reading { OneReading }
    ensures double_star { DoubleStarMatchesAll }
    ensures star { StarStopsAtSlashes }
    ensures plain { PlainIsItself }
{}
