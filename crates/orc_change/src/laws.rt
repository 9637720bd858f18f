//! A law of differences. The function does nothing: its contract is the law.
ghost use Rattle.orc_change.specs.Differences.{DifferenceLeads};

/// The difference of two configurations, applied to the first, gives the second.
pub fn difference_leads()
    ensures { DifferenceLeads }
{}
