//! Laws behind a cache of verdicts: functions with no body, whose contracts are the laws.
ghost use Rattle.cached_verdicts.specs.Laws.{EqualKeysEvaluateAlike, CacheableEditionsHitOnce, WholeEvaluationsAskNothing, OtherEditionsKeepNothing};

/// Two IPv4 packets of one key are evaluated to the same record under one edition and at one port, whatever
/// their seconds and totals, where the evaluation of one of them asks nothing.
pub fn equal_keys_evaluate_alike()
    ensures { EqualKeysEvaluateAlike }
{}

/// In an edition of which each rule ends the search where it matches, an evaluation of an IPv4 packet that asks
/// nothing hits the deciding rule's counter and no other, and ends with that rule's judgement.
pub fn cacheable_editions_hit_once()
    ensures { CacheableEditionsHitOnce }
{}

/// An evaluation that ends with no reply asks nothing.
pub fn whole_evaluations_ask_nothing()
    ensures { WholeEvaluationsAskNothing }
{}

/// Under an edition whose number isn't the last one given a cache keeps nothing, so all that it keeps is true.
pub fn other_editions_keep_nothing()
    ensures { OtherEditionsKeepNothing }
{}
