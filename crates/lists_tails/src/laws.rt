//! What holds of any turns by their definitions, for whoever proves something over tails.
//! The functions do nothing when they run.
ghost use Rattle.lists_tails.specs.Laws.{TailsOfActs, FrequencyOfLastTurn, FrequencyOfNoTurn};

/// After any turns each tail is the list of the frequency that they define.
pub fn tails_of_acts()
    ensures { TailsOfActs }
{}

/// The frequency that turns define is what the document's last turn up to the time gave the word.
pub fn frequency_of_last_turn()
    ensures { FrequencyOfLastTurn }
{}

/// The frequency that turns define is 0 before the document's first turn.
pub fn frequency_of_no_turn()
    ensures { FrequencyOfNoTurn }
{}
