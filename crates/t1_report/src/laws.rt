//! Laws above the definitions: each is the contract of a function without a body.

ghost use Rattle.t1_report.specs.Laws.Editions.{CleanFontsStayClean, UsualFontsHaveOneReport};
ghost use Rattle.t1_report.specs.Laws.LaterRules.{EarlierReportsHaveNoLaterRule, EarlierReportsKnowNoNotes, FirstThreeReportNoLatestRule, FourthReportsAsTheThird, ThirdReportsAsTheSecond};
ghost use Rattle.t1_char.specs.declared.edition.Edition.TheVariants.{Four, One, Three, Two};
ghost use Rattle.t1_report.specs.Laws.Limits.{AreCheckedTo};
ghost use Rattle.t1_report.specs.Laws.PassedLines.{PassedLinesBreakNoRule, WatchersMoveOnByLines};
ghost use Rattle.t1_report.specs.Laws.PassedNumbers.{CalmIsBehindNoReplacement, CalmWatchersStandBehindNumbers, PassedNumbersBreakNoRule};
ghost use Rattle.t1_report.specs.Laws.Reports.{HasNoOtherReport, HasReport};
ghost use Rattle.t1_report.specs.Laws.UnitFaults.{AllOfUnitAreGivenAtLast, GivenAreTheReports, MarksOfUnitGoOnCounting, NoneOfUnitIsGivenAtFirst, UnitsHaveFaults};
ghost use Rattle.t1_report.specs.Laws.WaivedFaults.{FontsHaveNoNameTwice, OrderLeavesFaults, OrderLeavesUses, RepeatedLinesSayNothing, UnusedWaiversChangeNothing, WaivedFaultsAreLeftOut};
ghost use Rattle.t1_report.specs.Laws.Walks.{AllAreGivenAtLast, AreBehindTheCount, AreTheReport, AreTheRest, GivenAreTheFront, MarksGoOnCounting, NoneIsGivenAtFirst};
ghost use Rattle.t1_report.specs.Laws.WaiverLines.{LinesAreWaivers, LinesMakeTheText};
ghost use Rattle.t1_report.specs.Laws.WithWaivers.{AskedToTheEnd, AskedToTheFirst, NoneIsAsked, ToldIsBroken};

/// Each font has a report.
pub fn each_font_has_a_report()
    ensures { HasReport }
{}

/// A font has no two reports: what rises strictly, has exactly the violations as its members and is
/// numbered from 1 is one list.
pub fn a_font_has_one_report()
    ensures { HasNoOtherReport }
{}

/// The faults after the mark of four zeros, each the next one until there is none, are the report.
pub fn faults_after_the_first_mark_are_the_report()
    ensures { AreTheReport }
{}

/// After the mark of a fault they are those after it in the report, with the numbers they have there.
pub fn faults_after_a_mark_are_the_rest()
    ensures { AreTheRest }
{}

/// A mark numbered n is after the report's first n faults, if it is the mark of four zeros or was reached from it. The
/// next fault is then number n + 1 of the report; if there is none, all were returned. So what was returned is a prefix
/// of the report, and what is to come is the rest.
pub fn marks_count_the_faults_given()
    ensures start { NoneIsGivenAtFirst }
    ensures next { MarksGoOnCounting }
    ensures end { AllAreGivenAtLast }
    ensures given { GivenAreTheFront }
    ensures rest { AreBehindTheCount }
{}

/// The faults of a unit, each the next one from the unit's first mark on, are exactly the report's of that unit, in
/// their order. Only their numbers differ, which count from 1 in the unit. Each unit has such faults, or none. Where n
/// of them were returned, and n is the mark's number, the next one is the one after these. If there is none, all were
/// returned.
pub fn faults_of_a_unit_are_the_reports()
    ensures given { GivenAreTheReports }
    ensures some { UnitsHaveFaults }
    ensures start { NoneOfUnitIsGivenAtFirst }
    ensures next { MarksOfUnitGoOnCounting }
    ensures end { AllOfUnitAreGivenAtLast }
{}

/// The first edition applies the table of rules to each of a glyph's first 100,000 steps, the others to the first
/// 1,000,000. At the step after these, if there is one, L01 alone is broken. Further on nothing is.
pub fn the_limit_is_one_step()
    ensures first { AreCheckedTo 100000 One }
    ensures second { AreCheckedTo 1000000 Two }
    ensures third { AreCheckedTo 1000000 Three }
    ensures fourth { AreCheckedTo 1000000 Four }
{}

/// Numbers that a machine passes break no rule, unless the first of them is directly after a hint replacement or the
/// pop of one. Calm watchers have seen no such step last. What they keep is the same after the numbers, which they
/// don't see.
pub fn passed_numbers_break_no_rule()
    ensures rules { PassedNumbersBreakNoRule }
    ensures calm { CalmIsBehindNoReplacement }
    ensures kept { CalmWatchersStandBehindNumbers }
{}

/// Numbers, lines, curves and closepaths that a machine passes in a path break no rule of the first three editions. The
/// watchers, which don't see them, keep the same after them, but for the current point and what is drawn: these are moved on by the way of the
/// steps.
pub fn passed_lines_break_no_rule()
    ensures rules { PassedLinesBreakNoRule }
    ensures kept { WatchersMoveOnByLines }
{}

/// Both editions report the same of a font without glyphs of over 100,000 steps and stems of width -20 or -21.
pub fn usual_fonts_have_one_report()
    ensures { UsualFontsHaveOneReport }
{}

/// A font without a fault in edition 1 has none in edition 2, where nothing is waived.
pub fn clean_fonts_stay_clean()
    ensures { CleanFontsStayClean }
{}

/// The first two editions report no rule after number 70, and noted keys change nothing of what they report. The third
/// reports the other rules as the second does, where waivers are of these alone.
pub fn later_rules_stand_beside()
    ensures earlier { EarlierReportsHaveNoLaterRule }
    ensures notes { EarlierReportsKnowNoNotes }
    ensures others { ThirdReportsAsTheSecond }
{}

/// The first three editions report no rule after number 93. The fourth reports the other rules as the third does, where
/// waivers are of these alone.
pub fn latest_rules_stand_beside()
    ensures first_three { FirstThreeReportNoLatestRule }
    ensures others { FourthReportsAsTheThird }
{}

/// Without waivers what is reported is what is broken, and no step is requested for one.
pub fn no_waivers_change_nothing()
    ensures told { ToldIsBroken }
    ensures turns { NoneIsAsked }
{}

/// A text is read as a waiver exactly where it is the line of that waiver: a name without blanks and delimiters, a
/// blank, the code of a rule that can be waived.
pub fn waiver_lines_are_waivers()
    ensures waiver { LinesAreWaivers }
    ensures lines { LinesMakeTheText }
{}

/// For a waiver, steps are requested up to the first of its glyph that breaks its rule, or for the whole glyph if none
/// does.
pub fn waivers_are_asked_to_the_first_use()
    ensures used { AskedToTheFirst }
    ensures unused { AskedToTheEnd }
{}

/// The faults of the font and its glyphs with waivers are those without, in order, less those that are waived. A waiver
/// is reported as unused exactly where they are the same without it. This needs that no two glyphs have one name, as in
/// each font that is read.
pub fn waivers_leave_out_what_they_say()
    ensures left { WaivedFaultsAreLeftOut }
    ensures unused { UnusedWaiversChangeNothing }
    ensures once { FontsHaveNoNameTwice }
{}

/// The order of waivers decides only the order and the places of those that aren't used. A line that was there before
/// says nothing more.
pub fn order_and_repetition_have_no_say()
    ensures faults { OrderLeavesFaults }
    ensures uses { OrderLeavesUses }
    ensures repeated { RepeatedLinesSayNothing }
{}
