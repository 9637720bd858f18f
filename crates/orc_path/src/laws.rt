//! What users rely on when texts are read. Each function does nothing: its contract is the law.
ghost use Rattle.orc_path.specs.Laws.{PathsAreRead, ValuesAreRead};

/// A text is read as a path exactly where it is the text of that path.
pub fn paths_are_read()
    ensures { PathsAreRead }
{}

/// A text is read as a value exactly where it is the text of that value.
pub fn values_are_read()
    ensures { ValuesAreRead }
{}
