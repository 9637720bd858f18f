//! What the entries of a journal commit.
ghost use Rattle.std.specs.Prelude.{◌≡◌};
ghost use Rattle.std.specs.Option.{option_copied};
ghost use Rattle.orc_journal.specs.Committed.{call_in, call_of, commits, as_calls};

use crate::Entry;
use orc_call::Call;

// The call of an entry, where it is an intent of the transaction.
fn call_in(entry: &Entry, t: u64) -> Option<&Call>
    ensures { option_copied result ≡ call_in t entry.now }
{
    match entry {
        Entry::Intent { t: u, call, .. } if *u == t => Some(call),
        _ => None,
    }
}

// The call of the intent of a transaction among entries; of two the later one counts. It looks from
// the end, since a Decide stands close after its intent.
fn call_of(entries: &[Entry], t: u64) -> Option<&Call>
    ensures { option_copied result ≡ call_of t entries.now }
{
    let mut at = entries.len();
    while at > 0 {
        at -= 1;
        if let Some(call) = call_in(&entries[at], t) {
            return Some(call);
        }
    }
    None
}

/// The call that an entry commits after those before it: a Decide that of its transaction's intent.
pub fn committed_by<'a>(before: &'a [Entry], entry: &Entry) -> Option<&'a Call>
    ensures { as_calls (option_copied result) ≡ commits before.now entry.now }
{
    match entry {
        Entry::Decide { t } => call_of(before, *t),
        _ => None,
    }
}
