//! A law of calls that fit together. The function does nothing: its contract is the law.
ghost use Rattle.orc_queue.specs.Fitting.{FittingIsMutual};

/// Where a call fits together with another one, the other one fits together with it.
pub fn fitting_is_mutual()
    ensures { FittingIsMutual }
{}
