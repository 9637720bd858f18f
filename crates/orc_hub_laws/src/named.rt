//! What is answered can be printed. Each function cites other laws at most: its contract is the law.
ghost use Rattle.orc_hub_laws.specs.Named.{AdmissionsAreNamed, DecisionsAreNamed, MendingEndIsNamed, SubmissionsAreNamed};
ghost use Rattle.orc_hub_laws.specs.Under.{InEach};

use orc_disk::Disk;
use orc_template::faults_are_named;

/// Each answer to a submission names a declared device, if one, and a rule that there is.
pub fn submissions_are_named<D: Disk>()
    ensures { SubmissionsAreNamed D.disk }
{
    faults_are_named();
}

/// Each answer to an admission names a declared device, if one, and a rule that there is.
pub fn admissions_are_named<D: Disk>()
    ensures { AdmissionsAreNamed D.disk }
{}

/// Each answer to a decision names a declared device, if one, and a rule that there is.
pub fn decisions_are_named<D: Disk>()
    ensures { DecisionsAreNamed D.disk }
{}

/// The end of a reconciliation names a declared device, if one.
pub fn mending_end_is_named<D: Disk>()
    ensures { InEach D.disk MendingEndIsNamed }
{}
