ghost use Rattle.fw_command.specs.Laws.{CommandsStandOnTheirLines, FaultsHaveTheirColumns, LinesGoByBytes, ScriptFaultsHaveTheirPlaces};

/// The lines of a script, byte after byte: a byte 10 ends a line, and every other byte stands before
/// the first line of those behind it.
pub fn lines_go_by_bytes()
    ensures { LinesGoByBytes }
{}

/// Each command, `after` and `live` of a script is what a line says, that of its number where it has
/// one, in the order of the lines; and what each line says is in the script.
pub fn commands_stand_on_their_lines()
    ensures { CommandsStandOnTheirLines }
{}

/// The fault of a line stands at its first byte that may not stand there; else where one of its words
/// begins, or one past its last word. The fault of a script names the first line that has one and a
/// column of it, and an `after` that can't stand in a live run the column where this word begins.
pub fn faults_have_their_columns()
    ensures lines { FaultsHaveTheirColumns }
    ensures scripts { ScriptFaultsHaveTheirPlaces }
{}
