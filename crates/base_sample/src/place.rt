//! Where a sample stands.
ghost use Rattle.std.specs.Prelude.{◌≡◌, ℕ, drop};
ghost use Rattle.base_sample.specs.Places.{IsPlace, commands_from};

/// How many plans a sample has.
const PLANS: u32 = 8;

/// How many questions a sample has.
const QUESTIONS: u32 = 10;

/// Which command of a sample comes next.
#[derive(Clone, Copy, Debug)]
pub(crate) enum Place {
    /// The change of this number, from 1 on.
    Change(u32),
    /// The plan of the word of this number, from 1 on.
    Plan(u32),
    /// The question for the word of this number, from 1 on, which is asked so many tenths of the way
    /// through the changes.
    Question(u32),
    /// The check of all that is stored.
    Check,
    /// None: all were given.
    End,
}

impl Place {
    /// The place behind this one, in a sample with so many changes.
    pub(crate) fn after(self, count: u32) -> Place
        requires { IsPlace count self }
        ensures place { IsPlace count result }
        ensures commands { (start : ℕ) → commands_from start count result ≡ drop 1 (commands_from start count self) }
    {
        match self {
            Place::Change(number) if number < count => Place::Change(number + 1),
            Place::Change(_) => Place::Plan(1),
            Place::Plan(number) if number < PLANS => Place::Plan(number + 1),
            Place::Plan(_) => Place::Question(1),
            Place::Question(tenths) if tenths < QUESTIONS => Place::Question(tenths + 1),
            Place::Question(_) => Place::Check,
            Place::Check | Place::End => Place::End,
        }
    }
}
