ghost use Rattle.ipfw_parser.specs.Laws.{DraftsAreInForm, DraftsAreWellFormed, OptionsAreReadInTurn};
ghost use Rattle.ipfw_parser.specs.Places.{FaultsStandAtWords};

/// Each draft that the grammar yields is well formed.
pub fn drafts_are_well_formed()
    ensures { DraftsAreWellFormed }
{}

/// Each draft that the grammar yields is in its form: lists aren't empty, names have allowed bytes, masks
/// have no bit in common, networks have no host bits.
pub fn drafts_are_in_form()
    ensures { DraftsAreInForm }
{}

/// The first fault of a rule stands where one of its words begins, or one past the line's last word.
pub fn faults_stand_at_words()
    ensures { FaultsStandAtWords }
{}

/// The options of a rule's body are read one after another to the line's end, however many there are.
pub fn options_are_read_in_turn()
    ensures { OptionsAreReadInTurn }
{}
