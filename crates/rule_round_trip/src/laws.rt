ghost use Rattle.rule_round_trip.specs.Laws.{AddLinesAreReadAgain, AddressListsAreReadAgain, CanonicalTextsAreReadable, CanonicalTextsKeepTheirWords, GroupsAreReadAgain, MasksAreReadAgain, NumbersAreReadAgain, PortListsAreReadAgain, Prefixes6AreReadAgain, PrefixesAreReadAgain, RulesAreReadAgain, RulesInFormAreReadAgain, TextsTellRulesApart, WordsAreReadAgain};

/// A number in its range, written in decimal digits, is read as that number.
pub fn numbers_are_read_again()
    ensures { NumbersAreReadAgain }
{}

/// Texts of words, written with one space between them, are read as these words.
pub fn words_are_read_again()
    ensures { WordsAreReadAgain }
{}

/// A list of port ranges in its canonical text is read as these ranges.
pub fn port_lists_are_read_again()
    ensures { PortListsAreReadAgain }
{}

/// A prefix in its canonical text is read as this prefix.
pub fn prefixes_are_read_again()
    ensures { PrefixesAreReadAgain }
{}

/// Eight groups in the canonical text of an IPv6 address are read as these groups.
pub fn groups_are_read_again()
    ensures { GroupsAreReadAgain }
{}

/// An IPv6 prefix in its canonical text is read as this prefix.
pub fn prefixes6_are_read_again()
    ensures { Prefixes6AreReadAgain }
{}

/// A list of addresses, tables among them, in its canonical text is read as this list.
pub fn address_lists_are_read_again()
    ensures { AddressListsAreReadAgain }
{}

/// TCP flags, IP options and types of ICMP and ICMPv6 in their canonical text are read as the same masks
/// and sets.
pub fn masks_are_read_again()
    ensures { MasksAreReadAgain }
{}

/// A rule in its form is read again from its canonical words, whatever words stand before them.
pub fn rules_in_form_are_read_again()
    ensures { RulesInFormAreReadAgain }
{}

/// Two rules in their form with one canonical text are one rule, identity and counter aside.
pub fn texts_tell_rules_apart()
    ensures { TextsTellRulesApart }
{}

/// The canonical text of a rule in its form, behind `add`, holds no byte that may not stand in a script.
pub fn canonical_texts_are_readable()
    ensures { CanonicalTextsAreReadable }
{}

/// The words of the canonical text of a rule in its form, behind `add`, are `add` and the rule's canonical
/// words.
pub fn canonical_texts_keep_their_words()
    ensures { CanonicalTextsKeepTheirWords }
{}

/// For every rule that the grammar yields, its canonical text behind `add` is read as the same rule.
pub fn rules_are_read_again()
    ensures { RulesAreReadAgain }
{}

/// The line `add` with the canonical text of a rule that the grammar yields, wherever it stands in a
/// script, is the command that adds this rule.
pub fn add_lines_are_read_again()
    ensures { AddLinesAreReadAgain }
{}
