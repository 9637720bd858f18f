//! What users rely on. Each function does nothing: its contract is the law.
ghost use Rattle.orc_bundle_laws.specs.Laws.{SkippedLinesChangeNothing, SpelledIsRead, WrittenIsRead};

/// An empty line or a comment outside a block changes neither the declarations nor the steps, so it
/// only moves the numbers of the lines after it.
pub fn skipped_lines_change_nothing()
    ensures { SkippedLinesChangeNothing }
{}

/// The text of a bundle that declares no modules is read as that bundle.
pub fn written_is_read()
    ensures { WrittenIsRead }
{}

/// Each spelling of a bundle is read as that bundle, after any lines that declare modules, types of
/// devices and the data schema: with comments and empty lines put in, and with carriage returns before
/// line feeds.
pub fn spelled_is_read()
    ensures { SpelledIsRead }
{}
