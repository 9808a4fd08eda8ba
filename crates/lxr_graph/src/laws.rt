//! What holds of every step. The functions do nothing: the contract of each is the law, and whoever calls one knows it.
ghost use Rattle.lxr_graph.specs.Laws.{StepKeepsRows};

/// A step adds no row, and at most one object to its thread's row; all other rows stay as long as they are.
pub fn step_keeps_rows()
    ensures { StepKeepsRows }
{}
