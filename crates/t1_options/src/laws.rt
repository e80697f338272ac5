//! Laws above the definitions: each is the contract of a function that does nothing.

ghost use Rattle.t1_options.specs.Laws.{CodesChooseRules, GivenOptionsWin, LevelsChooseRules, MeantGoTogether, NoRefusalIsKnown, RulesAreKnown, SettingsCount, ShardsAreParts, UsesCount, WritingHasNoBaseline};

/// `--only` and `--except` accept the code of each rule and its letters, and nothing that begins with E: refusals are
/// always printed.
#[tactic(auto, using(crate::proofs::Known::rules_are_known, crate::proofs::Known::no_refusal_is_known))]
pub fn rules_are_known()
    ensures rules { RulesAreKnown }
    ensures refusals { NoRefusalIsKnown }
{}

/// The rules of options are those that their codes choose: all, or those of `only`, but for those of `except`.
pub fn codes_choose_rules()
    ensures { CodesChooseRules }
{}

/// A rule is reported where its code is chosen and its level is.
#[tactic(auto, using(crate::proofs::Levels::levels_choose_rules))]
pub fn levels_choose_rules()
    ensures { LevelsChooseRules }
{}

/// `--shard` names a part from 1 to the number of parts, which is at most 99,999.
pub fn shards_are_parts()
    ensures { ShardsAreParts }
{}

/// Options that are taken go together: of the conditions on two options each holds.
pub fn options_go_together()
    ensures { MeantGoTogether }
{}

/// If an option is given twice, as `--NAME=VALUE`, its last value counts; of `--only`, `--except`, `--level`,
/// `--fail-on`, `--files-from` and `--exclude` both do, in their order.
#[tactic(auto, using(crate::proofs::Uses::uses_count))]
pub fn uses_count()
    ensures { UsesCount }
{}

/// What words give for a key counts, and else what settings have. Where waivers are written, settings name no file of
/// known faults.
#[tactic(auto, using(crate::proofs::Wins::given_options_win, crate::proofs::Wins::settings_count, crate::proofs::Wins::writing_has_no_baseline))]
pub fn given_options_win()
    ensures win { GivenOptionsWin }
    ensures count { SettingsCount }
    ensures writing { WritingHasNoBaseline }
{}
