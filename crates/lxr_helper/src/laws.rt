//! What holds of each space. The function does nothing: its contract is the law, and whoever calls it knows it.
ghost use Rattle.lxr_helper.specs.Indexes.{SpacesHaveIndexes};

/// Words of each space have indexes of 32 bits.
pub fn spaces_have_indexes()
    ensures { SpacesHaveIndexes }
{}
