//! What holds of changes by their definitions, for whoever proves something over them. Nothing here
//! runs.
ghost use Rattle.lists_versions.specs.Laws.{HeldAsChangesCome, TheAliveHoldSomething};
ghost use Rattle.lists_versions.specs.Lives.{LivesAreOne};

/// What a document holds at a time where one change more comes behind others. Does nothing.
pub fn held_as_changes_come<T>()
    ensures { HeldAsChangesCome T }
{}

/// The documents alive at a time are those of which something is held then. Does nothing.
pub fn the_alive_hold_something<T>()
    ensures { TheAliveHoldSomething T }
{}

/// There is one list of lives in a span. Does nothing.
pub fn lives_are_one<T>()
    ensures { LivesAreOne T }
{}
