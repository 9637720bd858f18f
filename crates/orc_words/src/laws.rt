//! How words are written. Each function does nothing: its contract is the law.
ghost use Rattle.orc_words.specs.Laws.{TakenWordsHaveCommand, WrittenWordsAreTaken};

/// `check`, `run` and `history` alone or with a file in either spelling, and `gen` with its numbers and
/// with or without a file, are taken.
pub fn written_words_are_taken()
    ensures { WrittenWordsAreTaken }
{}

/// Words that the parser has no cause to refuse have a command, unless a number of `gen` isn't of its
/// range.
pub fn taken_words_have_command()
    ensures { TakenWordsHaveCommand }
{}
