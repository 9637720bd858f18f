//! Laws of faults and of parsing. Each function does nothing: its contract is the law.
ghost use Rattle.orc_yang.specs.Laws.{HasOneFault, FollowsGrammar};

/// Bytes have one fault at most, apart from running out of memory, where a string or a comment
/// without end goes before what is at fault in it.
pub fn has_one_fault()
    ensures { HasOneFault }
{}

/// What bytes are parsed as is what the grammar and the meaning of faults say.
pub fn parsing_follows_the_grammar()
    ensures { FollowsGrammar }
{}
