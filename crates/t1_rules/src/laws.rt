//! Laws of the definitions, each on a call that does nothing.

ghost use Rattle.t1_rules.specs.Laws.Book.{CodesAreOfTheirRules, EachRuleStands, NoMoreRulesStand};
ghost use Rattle.t1_rules.specs.Laws.Levels.{LevelsHaveTheirWords};
ghost use Rattle.t1_rules.specs.Laws.Arguments.{KeptIsNotPast, NoneAreTooManyAtTheTop, NumbersOverflowAt24, OthersHaveNoArguments, TooFewAreFewerThanWanted, TooManyAreMoreThanArguments};
ghost use Rattle.t1_rules.specs.Laws.Calls.{SoundCallsGoIn};
ghost use Rattle.t1_rules.specs.Laws.FontRules.{AbsentEntriesBreakNothing, AbsentEntriesBreakTheirRules, BrokenIsInTheBook, EarlierEditionsKnowNoLaterRule, FirstThreeKnowNoLatestRule, FourthAgreesWithThird, LaterRulesChangeNoOther, NothingIsBrokenPastLast, NothingIsBrokenPastPlaces, RuleNumbersAreInOrder};
ghost use Rattle.t1_rules.specs.Laws.Later.{EarlierEditionsBreakNoLaterRule, FirstThreeBreakNoLatestRule, FourthBreaksAsTheThird, OneStemStandsBeside, ReplacementsHaveNoSay, ThirdAgreesWithSecond};
ghost use Rattle.t1_rules.specs.Laws.Components.{CapitalsNameThemselves, CodesAreCounted, NamesAreCounted, NoNameStandsTwice, OwnEncodingHasNoSay, PlacesHaveNoSay, SmallLettersNameThemselves};
ghost use Rattle.t1_rules.specs.Laws.Editions.{EditionsAgreeOnOtherRules, EditionsAgreeOnShortComponents, EditionsAgreeOnUsualSteps, EditionsAgreeWithoutOneEdge, OneEdgeOverlapsNothing, OtherStemsOverlapAsBefore, OverlapByIsMutual, SecondTellsNoMore, SecondTellsNoMoreInFonts, StemsAreKept};
ghost use Rattle.t1_rules.specs.Laws.Flex.{ClosepathLeavesThePoint, EndsLeadOutOfFlex, GlyphsBeginAtTheOrigin, OtherCountsAreNoFlex, SetcurrentpointAloneFollows, SetcurrentpointFollowsFlex, SetcurrentpointPutsThePoint, SevenPairsAreAFlex, ShortFormsLeadAsFar, StartsLeadIntoFlex, StepsMoveThePoint, VectorsPutThePoint, WidthsSetThePoint};
ghost use Rattle.t1_rules.specs.Laws.Othersubrs.{CallsAreOneOfFive, PopsAlonePopNothing, PopsOfNothingChangeNothing};
ghost use Rattle.t1_rules.specs.Laws.Replacements.{ReplacementsWantCallsubr, ReplacementsWantPop, StemsAloneAreLate, StemsAreLateBehindDrawing};
ghost use Rattle.t1_rules.specs.Laws.Seac.{CodesAreOneOfThree, CodesAreWholeTo255, MissingGlyphsAreTold, MissingSidebearingsAreTold, NestedSeacsAreTold, OtherSidebearingsAreTold, SeacAloneHasCodes, SeacAloneHasComponents, UnnamedCodesAreTold, WrongCodesAreTold};
ghost use Rattle.t1_rules.specs.Laws.StepRules.{ArgumentsCountFromTheBottom, BrokenStepsHaveTheseNumbers, ComponentRuleNumbersAreInOrder, EndsBreakOneRule, FlexIsByPlaces, LaterStepsHaveNoSay, MovedIsByPlaces, OneStepStartsWithoutWidth, OpenIsByPlaces, StepRuleNumbersAreInOrder, SurplusNumbersAreNotPast};
ghost use Rattle.t1_rules.specs.Laws.Stems.{HintSetsAreBounded, OneStemIsKept, OthersAreNotUneven, OthersLeaveHintSets, OverlapIsMutual, ReplacementsEmptyHintSets, SignsHaveNoSay, StemsOverlapWhereTheyShareAPlace, ThreeStemsAreEven, ThreeStemsAreKept};
ghost use Rattle.t1_rules.specs.Laws.Zones.{ZonesAreApartWhereOneIsAbove, ZonesMeetOneOfTheOthers, ZonesAreNearBothWays, ZonesAreNearTheOneBefore, NoZoneIsPastPairs, ZonesReachOne, ListsRiseWhereNoneFalls, ZonesArePairs};

/// The font rules have the numbers from 1 to 25, from 71 to 85 and from 94 to 101, and what is broken is a rule of the book.
#[tactic(auto, using(crate::proofs::Lemmas::FontRules::numbers_in_order, crate::proofs::Lemmas::FontRules::broken_is_in_the_book))]
pub fn rules_have_their_numbers()
    ensures order { RuleNumbersAreInOrder }
    ensures book { BrokenIsInTheBook }
{}

/// An edition without the font rules after number 70 breaks none of them; which of the others are broken is the same in each.
#[tactic(auto, using(crate::proofs::Lemmas::FontRules::earlier_editions_know_no_later_rule, crate::proofs::Lemmas::FontRules::later_rules_change_no_other))]
pub fn later_rules_stand_alone()
    ensures earlier { EarlierEditionsKnowNoLaterRule }
    ensures others { LaterRulesChangeNoOther }
{}

/// An edition without the font rules after number 93 breaks none of them; which of the others are broken is the same in the
/// fourth edition as in the third.
#[tactic(auto, using(crate::proofs::Lemmas::FontRules::first_three_know_no_latest_rule, crate::proofs::Lemmas::FontRules::fourth_agrees_with_third))]
pub fn latest_rules_stand_alone()
    ensures first_three { FirstThreeKnowNoLatestRule }
    ensures others { FourthAgreesWithThird }
{}

/// Nothing is broken past the places of a key, past the last key or past the last index.
#[tactic(auto, using(crate::proofs::Lemmas::Keys::past_places, crate::proofs::Lemmas::Keys::none_past_last))]
pub fn rules_have_their_places()
    ensures places { NothingIsBrokenPastPlaces }
    ensures last { NothingIsBrokenPastLast }
{}

/// An entry that isn't there breaks no rule but F03, F04, F07, F08, F15, F16 and Z12, and F23, which counts. Where it is the entry of one of
/// these, it does.
pub fn absent_entries_are_fine()
    ensures nothing { AbsentEntriesBreakNothing }
    ensures these { AbsentEntriesBreakTheirRules }
{}

/// A list's zones are its pairs of numbers.
#[tactic(auto, using(crate::proofs::Lemmas::Zones::zone_there, crate::proofs::Lemmas::Zones::no_zone))]
pub fn zones_are_pairs()
    ensures there { ZonesArePairs }
    ensures past { NoZoneIsPastPairs }
{}

/// What is said at a zone's edges is said of the zone, of the one before it and of the other list's.
#[tactic(auto, using(crate::proofs::Lemmas::Zones::near_the_one_before, crate::proofs::Lemmas::Zones::meets_one, crate::proofs::Lemmas::Zones::reaches_one))]
pub fn rules_are_on_zones()
    ensures near { ZonesAreNearTheOneBefore }
    ensures meets { ZonesMeetOneOfTheOthers }
    ensures high { ZonesReachOne }
{}

/// Two zones come near unless one lies the distance above the other, whichever is looked at first.
#[tactic(auto, using(crate::proofs::Lemmas::Zones::apart_where_above, crate::proofs::Lemmas::Zones::above_is_apart, crate::proofs::Lemmas::Zones::near_both_ways))]
pub fn zones_come_near_both_ways()
    ensures apart { ZonesAreApartWhereOneIsAbove }
    ensures both { ZonesAreNearBothWays }
{}

/// A list in which no number is less than the one before it rises from its first number to its last.
#[tactic(auto, using(crate::proofs::Lemmas::Zones::rising_where_none_falls, crate::proofs::Lemmas::Zones::falls_nowhere))]
pub fn numbers_rise_where_none_falls()
    ensures { ListsRiseWhereNoneFalls }
{}

/// The rules on steps of a glyph have the numbers from 26 to 68 and from 86 to 93. What its own steps break is one of 26 to
/// 67, or of 86 to 93 where the edition has these.
#[tactic(auto, using(crate::proofs::Lemmas::StepRules::numbers_in_order, crate::proofs::Lemmas::StepRules::component_numbers_in_order, crate::proofs::Lemmas::StepRules::broken_have_these_numbers))]
pub fn step_rules_have_their_numbers()
    ensures order { StepRuleNumbersAreInOrder }
    ensures components { ComponentRuleNumbersAreInOrder }
    ensures these { BrokenStepsHaveTheseNumbers }
{}

/// A step breaks no rule after number 70 in an edition that hasn't them, and the others as in the second edition where it
/// has.
#[tactic(auto, using(crate::proofs::Lemmas::LaterLaws::earlier_editions_break_no_later_rule, crate::proofs::Lemmas::LaterLaws::third_agrees_with_second))]
pub fn later_step_rules_stand_alone()
    ensures earlier { EarlierEditionsBreakNoLaterRule }
    ensures others { ThirdAgreesWithSecond }
{}

/// A step breaks no rule after number 93 in an edition that hasn't them, and the others in the fourth edition as in the third.
#[tactic(auto, using(crate::proofs::Lemmas::LaterLaws::first_three_break_no_latest_rule, crate::proofs::Lemmas::LaterLaws::fourth_breaks_as_the_third))]
pub fn latest_step_rules_stand_alone()
    ensures first_three { FirstThreeBreakNoLatestRule }
    ensures others { FourthBreaksAsTheThird }
{}

/// H06 and H07 are on the whole glyph, whose hint replacements have no say; H06 has one place at most for each direction.
#[tactic(auto, using(crate::proofs::Lemmas::LaterLaws::replacements_have_no_say, crate::proofs::Lemmas::LaterLaws::one_stem_stands_beside))]
pub fn stems_stand_beside_three_once()
    ensures replacements { ReplacementsHaveNoSay }
    ensures once { OneStemStandsBeside }
{}

/// What a step breaks depends on the steps up to it alone.
#[tactic(auto, using(crate::proofs::Lemmas::StepRules::later_steps_have_no_say))]
pub fn later_steps_have_no_say()
    ensures { LaterStepsHaveNoSay }
{}

/// Arguments are counted from the bottom of the stack: what lies above them has no say in what they are,
/// nor in whether one is past 32000.
#[tactic(auto, using(crate::proofs::Lemmas::StepRules::arguments_count_from_the_bottom, crate::proofs::Lemmas::StepRules::surplus_numbers_are_not_past))]
pub fn arguments_count_from_the_bottom()
    ensures argument { ArgumentsCountFromTheBottom }
    ensures past { SurplusNumbersAreNotPast }
{}

/// The end of a charstring breaks one rule: a Subr lacks its return, or the glyph its endchar.
#[tactic(auto, using(crate::proofs::Lemmas::StepRules::ends_break_one_rule))]
pub fn ends_break_one_rule()
    ensures { EndsBreakOneRule }
{}

/// At most one step of a glyph breaks W01, that the first command isn't hsbw or sbw.
#[tactic(auto, using(crate::proofs::Lemmas::StepRules::one_step_starts_without_width))]
pub fn one_step_starts_without_width()
    ensures { OneStepStartsWithoutWidth }
{}

/// In flex, moved, and with the path open is decided by the places of the steps before: one that begins it, and none
/// after it that ends it.
#[tactic(auto, using(crate::proofs::Lemmas::StepRules::flex_is_by_places, crate::proofs::Lemmas::StepRules::moved_is_by_places, crate::proofs::Lemmas::StepRules::open_is_by_places))]
pub fn paths_are_by_places()
    ensures flex { FlexIsByPlaces }
    ensures moved { MovedIsByPlaces }
    ensures open { OpenIsByPlaces }
{}

/// Two stems overlap exactly where they share a place, whichever is named first and whichever edge they
/// are given from; stems that touch share none.
#[tactic(auto, using(crate::proofs::Lemmas::Overlaps::overlap_is_mutual, crate::proofs::Lemmas::Overlaps::signs_have_no_say))]
pub fn stems_overlap_where_they_share_a_place()
    ensures place { StemsOverlapWhereTheyShareAPlace }
    ensures mutual { OverlapIsMutual }
    ensures signs { SignsHaveNoSay }
{}

/// In the second edition a stem of one edge overlaps nothing, and other stems overlap as in the first. Both
/// keep it, and both say the same of steps where there is none. What a step breaks in the second it breaks in
/// the first.
#[tactic(auto, using(crate::proofs::Lemmas::Editions::overlap_by_is_mutual, crate::proofs::Lemmas::Editions::one_edge_overlaps_nothing, crate::proofs::Lemmas::Editions::other_stems_overlap_as_before, crate::proofs::Lemmas::Editions::stems_are_kept, crate::proofs::Lemmas::Editions::agree_without_one_edge, crate::proofs::Lemmas::Editions::second_tells_no_more))]
pub fn editions_differ_in_stems_of_one_edge()
    ensures mutual { OverlapByIsMutual }
    ensures nothing { OneEdgeOverlapsNothing }
    ensures others { OtherStemsOverlapAsBefore }
    ensures kept { StemsAreKept }
    ensures without { EditionsAgreeWithoutOneEdge }
    ensures no_more { SecondTellsNoMore }
{}

/// Both editions say the same of a step but by H02, K04, K05 and K07. Where no component has more than 100,000 steps,
/// they differ by H02 alone, which the second reports only where the first does.
#[tactic(auto, using(crate::proofs::Lemmas::Editions::agree_on_other_rules, crate::proofs::Lemmas::Editions::agree_on_short_components, crate::proofs::Lemmas::Editions::agree_on_usual_steps, crate::proofs::Lemmas::Editions::second_tells_no_more_in_fonts))]
pub fn editions_agree_on_other_rules()
    ensures others { EditionsAgreeOnOtherRules }
    ensures short { EditionsAgreeOnShortComponents }
    ensures usual { EditionsAgreeOnUsualSteps }
    ensures no_more { SecondTellsNoMoreInFonts }
{}

/// A hint replacement empties the hint sets, which have 96 stems at most.
#[tactic(auto, using(crate::proofs::Lemmas::Overlaps::replacements_empty_hint_sets, crate::proofs::Lemmas::Overlaps::hint_sets_are_bounded))]
pub fn hint_sets_begin_anew()
    ensures empty { ReplacementsEmptyHintSets }
    ensures most { HintSetsAreBounded }
{}

/// Of a call of an OtherSubr with two numbers exactly one holds. It does what the standard says of 0 to 3; it controls
/// counters; or it breaks one of O01, O02 and O03.
#[tactic(auto, using(crate::proofs::Lemmas::OthersubrCalls::calls_are_one_of_five))]
pub fn othersubr_calls_are_one_of_five()
    ensures { CallsAreOneOfFive }
{}

/// The current point goes from where hsbw sets it by the displacement of each step; closepath leaves it.
#[tactic(auto, using(crate::proofs::Lemmas::FlexPairs::widths_set_the_point, crate::proofs::Lemmas::FlexPairs::steps_move_the_point, crate::proofs::Lemmas::FlexPairs::closepath_leaves_the_point))]
pub fn current_points_move_on()
    ensures width { WidthsSetThePoint }
    ensures moves { StepsMoveThePoint }
    ensures closepath { ClosepathLeavesThePoint }
{}

/// A start leads into flex, and an end out of it; seven pairs of a move and a point between them break no
/// X04.
#[tactic(auto, using(crate::proofs::Lemmas::FlexPairs::starts_lead_into_flex, crate::proofs::Lemmas::FlexPairs::ends_lead_out_of_flex, crate::proofs::Lemmas::FlexPairs::seven_pairs_are_a_flex))]
pub fn flex_goes_from_its_start_to_its_end()
    ensures start { StartsLeadIntoFlex }
    ensures end { EndsLeadOutOfFlex }
    ensures pairs { SevenPairsAreAFlex }
{}

/// StandardEncoding has names for 149 of its 256 codes, and no name for two codes.
#[tactic(auto, using(crate::proofs::Lemmas::ComponentLaws::codes_are_counted, crate::proofs::Lemmas::ComponentLaws::names_are_counted, crate::proofs::Lemmas::ComponentLaws::no_name_stands_twice))]
pub fn standard_encoding_names_149_codes()
    ensures codes { CodesAreCounted }
    ensures names { NamesAreCounted }
    ensures once { NoNameStandsTwice }
{}

/// A component depends on its charstring and the font's Subrs and lenIV alone. The font's own Encoding has no say. Nor
/// has its place among the glyphs, if it is the first of its name: it may be before the accented character or after it.
#[tactic(auto, using(crate::proofs::Lemmas::ComponentLaws::own_encoding_has_no_say, crate::proofs::Lemmas::ComponentLaws::places_have_no_say))]
pub fn components_are_found_by_their_names()
    ensures encoding { OwnEncodingHasNoSay }
    ensures places { PlacesHaveNoSay }
{}

/// After another number of pairs than seven, or with a move whose point hasn't come, the end of a flex breaks X04.
#[tactic(auto, using(crate::proofs::Lemmas::FlexCounts::other_counts_are_no_flex))]
pub fn other_counts_are_no_flex()
    ensures { OtherCountsAreNoFlex }
{}

/// The current point begins at (0, 0); sbw and setcurrentpoint put it where they say.
#[tactic(auto, using(crate::proofs::Lemmas::FlexCounts::glyphs_begin_at_the_origin, crate::proofs::Lemmas::FlexCounts::vectors_put_the_point, crate::proofs::Lemmas::FlexCounts::setcurrentpoint_puts_the_point))]
pub fn points_are_put()
    ensures start { GlyphsBeginAtTheOrigin }
    ensures vector { VectorsPutThePoint }
    ensures point { SetcurrentpointPutsThePoint }
{}

/// Short forms of moves, lines and curves lead as far as the full ones.
pub fn short_forms_lead_as_far()
    ensures { ShortFormsLeadAsFar }
{}

/// The codes of letters in StandardEncoding have the letters as their names.
#[tactic(auto, using(crate::proofs::Lemmas::FlexCounts::capitals_name_themselves, crate::proofs::Lemmas::FlexCounts::small_letters_name_themselves))]
pub fn letters_name_themselves()
    ensures capitals { CapitalsNameThemselves }
    ensures small { SmallLettersNameThemselves }
{}

/// callsubr with a number goes into a Subr exactly where it breaks neither S01 nor S02.
#[tactic(auto, using(crate::proofs::Lemmas::CallLaws::sound_calls_go_in))]
pub fn sound_calls_go_in()
    ensures { SoundCallsGoIn }
{}

/// A number is past the range of 32000 exactly where it isn't kept as it is.
#[tactic(auto, using(crate::proofs::Lemmas::ArgumentLaws::kept_is_not_past))]
pub fn kept_numbers_are_not_past()
    ensures { KeptIsNotPast }
{}

/// A hint set grows by the stems of its direction's commands, up to 96, and by nothing else.
#[tactic(auto, using(crate::proofs::Lemmas::StemLaws::one_stem_is_kept, crate::proofs::Lemmas::StemLaws::three_stems_are_kept, crate::proofs::Lemmas::StemLaws::others_leave_hint_sets))]
pub fn hint_sets_grow()
    ensures one { OneStemIsKept }
    ensures three { ThreeStemsAreKept }
    ensures others { OthersLeaveHintSets }
{}

/// hstem3 and vstem3 break H04 unless the outer stems are equally wide and the gaps between the three too.
#[tactic(auto, using(crate::proofs::Lemmas::StemLaws::three_stems_are_even, crate::proofs::Lemmas::StemLaws::others_are_not_uneven))]
pub fn three_stems_are_even()
    ensures even { ThreeStemsAreEven }
    ensures others { OthersAreNotUneven }
{}

/// The codes of seac are the whole numbers from 0 to 255; an argument is no code, one without a name, or one
/// with a name, and never two of these.
#[tactic(auto, using(crate::proofs::Lemmas::SeacLaws::codes_are_whole_to_255, crate::proofs::Lemmas::SeacLaws::codes_are_one_of_three))]
pub fn codes_are_whole_to_255()
    ensures whole { CodesAreWholeTo255 }
    ensures three { CodesAreOneOfThree }
{}

/// A command breaks C04 where fewer numbers are on the stack than it needs, and C05 where more are there than its
/// arguments. A number that comes to 24 breaks C06.
#[tactic(auto, using(crate::proofs::Lemmas::ArgumentLaws::too_few_are_fewer, crate::proofs::Lemmas::ArgumentLaws::too_many_are_more, crate::proofs::Lemmas::ArgumentLaws::none_are_too_many))]
pub fn numbers_are_counted()
    ensures few { TooFewAreFewerThanWanted }
    ensures many { TooManyAreMoreThanArguments }
    ensures top { NoneAreTooManyAtTheTop }
    ensures others { OthersHaveNoArguments }
    ensures overflow { NumbersOverflowAt24 }
{}

/// A stem breaks H01 where something was drawn at some place before it, and no hints were replaced since.
#[tactic(auto, using(crate::proofs::Lemmas::Behind::stems_are_late_behind_drawing, crate::proofs::Lemmas::Behind::stems_alone_are_late))]
pub fn stems_are_late_behind_drawing()
    ensures late { StemsAreLateBehindDrawing }
    ensures others { StemsAloneAreLate }
{}

/// What follows a hint replacement breaks R01 unless it is pop. What follows that pop breaks R02 unless it is
/// callsubr. Nothing else breaks them.
#[tactic(auto, using(crate::proofs::Lemmas::Behind::replacements_want_pop, crate::proofs::Lemmas::Behind::replacements_want_callsubr))]
pub fn replacements_are_followed()
    ensures pop { ReplacementsWantPop }
    ensures call { ReplacementsWantCallsubr }
{}

/// setcurrentpoint breaks X06 unless the end of a flex and two pops are just before it.
#[tactic(auto, using(crate::proofs::Lemmas::Behind::setcurrentpoint_follows_flex, crate::proofs::Lemmas::Behind::setcurrentpoint_alone_follows))]
pub fn setcurrentpoint_follows_flex()
    ensures follows { SetcurrentpointFollowsFlex }
    ensures others { SetcurrentpointAloneFollows }
{}

/// pop breaks O04 exactly where it changes nothing.
pub fn pops_of_nothing_change_nothing()
    ensures nothing { PopsOfNothingChangeNothing }
    ensures others { PopsAlonePopNothing }
{}

/// seac breaks K03 where the font lacks a glyph that it names, and K04 where such a glyph has a seac of its own. It
/// breaks K05 where the accent's first sidebearing is another than seac's, and K07 where such a glyph has none.
#[tactic(auto, using(crate::proofs::Lemmas::SeacComponents::missing_glyphs_are_told, crate::proofs::Lemmas::SeacComponents::nested_seacs_are_told, crate::proofs::Lemmas::SeacComponents::other_sidebearings_are_told, crate::proofs::Lemmas::SeacComponents::missing_sidebearings_are_told, crate::proofs::Lemmas::SeacComponents::seac_alone_has_components))]
pub fn components_are_judged_by_their_steps()
    ensures missing { MissingGlyphsAreTold }
    ensures nested { NestedSeacsAreTold }
    ensures other { OtherSidebearingsAreTold }
    ensures none { MissingSidebearingsAreTold }
    ensures seac { SeacAloneHasComponents }
{}

/// seac breaks K01 where the base's or the accent's argument is no code, and K02 where it is a code without a name.
#[tactic(auto, using(crate::proofs::Lemmas::SeacComponents::wrong_codes_are_told, crate::proofs::Lemmas::SeacComponents::unnamed_codes_are_told))]
pub fn codes_are_judged_by_their_names()
    ensures wrong { WrongCodesAreTold }
    ensures unnamed { UnnamedCodesAreTold }
    ensures seac { SeacAloneHasCodes }
{}

/// The list of all rules has each rule at its number, and no other; and a code is looked up as the rule that has it.
pub fn rules_are_in_the_book()
    ensures each { EachRuleStands }
    ensures no_more { NoMoreRulesStand }
    ensures codes { CodesAreOfTheirRules }
{}

/// A word names a level exactly where it is that level's.
#[tactic(auto, using(crate::proofs::Lemmas::Levels::levels_have_their_words))]
pub fn levels_have_their_words()
    ensures { LevelsHaveTheirWords }
{}
