//! Laws above the definitions: each is the contract of a function that does nothing.

ghost use Rattle.t1_summary.specs.Laws.{ClassesAddUp, FontsAddUp, LinesAddUp, RankingsAreOne, RankingsStand, RulesAddUp, TalliesCount};

/// Each font is of one class, and each line of one rule. So the numbers of a tally sum to its fonts, and to its lines,
/// if there are fewer than 2^64.
pub fn counts_add_up()
    ensures classes { ClassesAddUp }
    ensures rules { RulesAddUp }
    ensures fonts { FontsAddUp }
    ensures lines { LinesAddUp }
{}

/// The tally of fonts and lines has their counts.
pub fn tallies_count()
    ensures { TalliesCount }
{}

/// The rules have one order by a tally.
pub fn rules_have_one_ranking()
    ensures stands { RankingsStand }
    ensures one { RankingsAreOne }
{}
