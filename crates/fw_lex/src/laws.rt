ghost use Rattle.fw_lex.specs.Laws.{LongestRunsAreScanned, ScannedAreLongestRuns};

/// What a scan over a part's bytes finds, `tokens_in`, are its longest runs of bytes that aren't blank,
/// and nothing else is: there is one list of them.
pub fn longest_runs_are_scanned()
    ensures runs { ScannedAreLongestRuns }
    ensures alone { LongestRunsAreScanned }
{}
