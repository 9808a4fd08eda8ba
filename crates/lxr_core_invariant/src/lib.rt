//! What holds while threads run between two pauses, whatever the order of their atomic steps.
#![tactic(auto)]
