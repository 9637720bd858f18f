//! A law of configurations. The function does nothing: its contract is the law.
ghost use Rattle.orc_tree.specs.Sameness.{EqualConfigsAreOne};

/// The test of equality of configurations decides it.
pub fn equal_configs_are_one()
    ensures { EqualConfigsAreOne }
{}
