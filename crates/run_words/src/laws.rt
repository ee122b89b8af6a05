//! What holds of words by their definition. The functions do nothing when they run.
ghost use Rattle.run_words.specs.Laws.{ExportFormAsks, FollowFormAsks, NoWordsAskForTheScript, OneOptionAsksForNothing, PlainFormsAsk, WordsAskForOneThing, WordsAskOrDoNot};

/// Words ask for one thing at most.
pub fn words_ask_for_one_thing()
    ensures { WordsAskForOneThing }
{}

/// Any words ask for something or for nothing.
pub fn words_ask_or_do_not()
    ensures { WordsAskOrDoNot }
{}

/// No words ask for the script; both options of a sample in a plain form for what their values ask for,
/// whatever texts these are, and so does the option of an export; the word `--follow` for the packets
/// of the standard input; and one option of a sample alone asks for nothing.
pub fn plain_forms()
    ensures none { NoWordsAskForTheScript }
    ensures both { PlainFormsAsk }
    ensures export { ExportFormAsks }
    ensures follow { FollowFormAsks }
    ensures one { OneOptionAsksForNothing }
{}
