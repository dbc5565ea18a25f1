//! What holds of every script and every capture that a load makes.
ghost use Rattle.load_laws.specs.Laws.{MadeCapturesAreWhole, MadeScriptsAreAccepted, MadeScriptsAreRead};

/// The bytes of a load's script are read as its rules, `live` and the two steps behind it.
pub fn made_scripts_are_read()
    ensures { MadeScriptsAreRead }
{}

/// Each command of a load's script is accepted, before `live` and behind it.
pub fn made_scripts_are_accepted()
    ensures { MadeScriptsAreAccepted }
{}

/// A load's capture of n records is read as n records, to its end.
pub fn made_captures_are_whole()
    ensures { MadeCapturesAreWhole }
{}
