//! That a file is one journal only, what the order rules ask, where an append is stopped, and what appends add up to. Each
//! function does nothing: its contract is the law.
ghost use Rattle.orc_journal.specs.AppendLaws.{AddUp, StopsWhereArmed};
ghost use Rattle.orc_journal.specs.Laws.{EntryMoreKeepsOrder, HasOneListOfEntries, HasOneTextOfDeclarations, HasOneVerdict, KeepsOrder};

use orc_disk::Disk;

/// A file is the journal of one list of entries only.
pub fn has_one_list_of_entries()
    ensures { HasOneListOfEntries }
{}

/// It is the journal of one text of declarations only.
pub fn has_one_text_of_declarations()
    ensures { HasOneTextOfDeclarations }
{}

/// A file is a journal, or is refused, for one reason and at one place only.
pub fn has_one_verdict()
    ensures { HasOneVerdict }
{}

/// After entries in order an intent may stand exactly where none of them names its transaction, a
/// Decide or Abort where the intent is there and nothing else of it, and a Settled where the intent
/// is there and no Settled of it.
pub fn keeps_order()
    ensures { KeepsOrder }
{}

/// An entry more changes nothing for the next one of another transaction. Of the same one, Decide,
/// Abort or Settled may come after an intent, Settled after a Decide or an Abort, and no more.
pub fn entry_more_keeps_order()
    ensures { EntryMoreKeepsOrder }
{}

/// An append is stopped exactly where a stop is armed among its four operations, the disk fails none
/// before it, and the entry finds room and memory, without which no operation is done.
pub fn stops_where_armed<D: Disk>()
    ensures { StopsWhereArmed D.disk }
{}

/// Appends that are done in turn, as the intent, the decision and the end of one call, add up to a
/// row, and so does the stop or the fault of the one after them.
pub fn add_up<D: Disk>()
    ensures { AddUp D.disk }
{}
