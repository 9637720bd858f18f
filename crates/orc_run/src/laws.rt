//! What users rely on of runs, and of files that hold journals. The functions do nothing: their
//! contracts are the laws.
ghost use Rattle.orc_run.specs.Complete.{AreDoneWhereNothingFails};
ghost use Rattle.orc_run.specs.Decided.{BytesDecide};
ghost use Rattle.orc_run.specs.Laws.{FileTellsOneHistory, GatedFilesStay, HasTheseNumbers};
ghost use Rattle.orc_run.specs.ReadBack.{ReadBackRunsHaveTheHeadline, RecoveriesNeedTheirLine};

use orc_disk::Disk;
use orc_runs::bundle_runs_have_the_headline;

/// Each run on the devices as a bundle declares them has the headline, over any disk, where its reads gave
/// what was written: the disk reports what it holds, or each recovery of the run goes on from the entries
/// that had been written.
pub fn read_back_runs_have_the_headline<D: Disk>()
    ensures { ReadBackRunsHaveTheHeadline D.disk }
{
    bundle_runs_have_the_headline::<D>();
}

/// Where no line of a script is `recover`, no event of its runs is a recovery: so nothing is asked there of
/// what reads give.
pub fn recoveries_need_their_line<D: Disk>()
    ensures { RecoveriesNeedTheirLine D.disk }
{}

/// The first bytes of a source decide whether a command ends with Bundle, and with which line and
/// rule.
pub fn bytes_decide<D: Disk>()
    ensures { BytesDecide D.disk }
{}

/// Where the words and the bundle are right and the journal's history is legal, and nothing fails, all
/// is done, or memory runs out.
pub fn is_done_where_nothing_fails<D: Disk>()
    ensures { AreDoneWhereNothingFails D.disk }
{}

/// A file determines one history: a recovery learns the very history that the clauses on stops and crashes
/// say is in the file.
pub fn file_tells_one_history()
    ensures { FileTellsOneHistory }
{}

/// A file with its ending gate stays as it is while it is opened, whatever crash comes.
pub fn gated_files_stay<D: Disk>()
    ensures { GatedFilesStay D.disk }
{}

/// These limits, the journal's first bytes, its gates and the kinds of its entries are the numbers
/// that `docs/FORMATS.md` gives.
pub fn has_these_numbers()
    ensures { HasTheseNumbers }
{}
