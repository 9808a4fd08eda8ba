//! The text of a thread's calls in a history. These functions do nothing: their contracts are laws of the definitions.
ghost use Rattle.lxr_text_print.specs.Laws.{GrowsByCalls, IsOfItsOperations};

/// A call adds its line to its thread's text, and the end adds nothing.
pub fn text_grows_by_calls()
    ensures { GrowsByCalls }
{}

/// What `print_replies` writes of a thread's operations and replies is the text of its calls in a history.
pub fn text_is_of_operations()
    ensures { IsOfItsOperations }
{}
