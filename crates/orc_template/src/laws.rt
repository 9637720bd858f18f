//! What the contracts on templates rest on, as laws: functions that do nothing and say what holds.
ghost use Rattle.orc_template.specs.Readers.{AreReaders};
ghost use Rattle.orc_template.specs.TheReaders.{the_readers};
ghost use Rattle.orc_template.specs.Spelled.{StringsAreCut, CutStringsAreWritten, ExpressionsFitInBraces};
ghost use Rattle.orc_template.specs.LeastFaults.{LeastFaultIsNamed};
ghost use Rattle.orc_template.specs.Laws.{TextsHaveReaders, ReadersAreOne, ExpansionsAreFixed, WrittenIsTyped, FaultsAreNamed};

/// There are readers that give the expression, and the condition, of each text that has one.
pub fn texts_have_readers()
    ensures { TextsHaveReaders }
{}

/// These readers do.
pub fn the_readers_read_back()
    ensures { AreReaders the_readers }
{}

/// Each two of them give the same.
pub fn readers_are_one()
    ensures { ReadersAreOne }
{}

/// Two views of equal shapes that share what an expansion read give the same expansion and the same
/// reads.
pub fn expansions_are_fixed_by_reads()
    ensures { ExpansionsAreFixed }
{}

/// What an expansion writes on a device is a configuration of items that may stand under the
/// device's schema.
pub fn written_is_typed()
    ensures { WrittenIsTyped }
{}

/// The string that parts are written as, plain texts with their braces doubled and expressions in
/// braces, is cut into these parts again, plain texts beside one another as one.
pub fn strings_are_cut()
    ensures { StringsAreCut }
{}

/// A string that is cut without fault is the one that its parts are written as; so no other one is
/// cut into them.
pub fn cut_strings_are_written()
    ensures { CutStringsAreWritten }
{}

/// The text of an expression can stand between braces.
pub fn expressions_fit_in_braces()
    ensures { ExpressionsFitInBraces }
{}

/// An expansion that fails names one of its five rules, and one of the template's blocks.
pub fn faults_are_named()
    ensures { FaultsAreNamed }
{}

/// The fault that a text is refused with is the least of all its faults as a template, that of the
/// least block and of the least rule there; and one that has none is not refused.
pub fn least_fault_is_named()
    ensures { LeastFaultIsNamed }
{}
