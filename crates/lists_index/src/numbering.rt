//! Words numbered in order.
ghost use Rattle.std.specs.Prelude.{◌≡◌, ◌+◌, ◌≤◌, length};
ghost use Rattle.text_words.specs.Words.{with_all};

use base_types::Key;
use text_words::Vocabulary;

/// Numbers the words in order, for which there is room.
pub(crate) fn number_all(vocabulary: &mut Vocabulary, fresh: Vec<Key>)
    requires { length (with_all vocabulary.old.words fresh.items) ≤ length vocabulary.old.words + vocabulary.old.spare }
    ensures { vocabulary.new.words ≡ with_all vocabulary.old.words fresh.items }
{
    for key in fresh {
        vocabulary.number(key);
    }
}
