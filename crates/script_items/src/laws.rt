//! What holds of items whatever is read.
ghost use Rattle.std.specs.Prelude.{◌≡◌, ◌++◌, ℕ, Bool, List, Option, All};
ghost use Rattle.base_commands.specs.declared.command.Item.{Item};
ghost use Rattle.base_commands.specs.Documents.{HasDocument};
ghost use Rattle.script_read.specs.declared.part.Part.{Part as PlainPart};
ghost use Rattle.script_items.specs.Groups.{Begun, makes, with_items};
ghost use Rattle.script_items.specs.Items.{Items};

/// The documents that the items of any bytes name are numbers below 2^32, and their batches have
/// from 1 to 1,000 items; what parts make goes on with what is under way behind them. Does nothing.
pub fn items_are_in_range()
    ensures documents { (ended : Bool) (bytes : List ℕ) (items : List Item) (rest : List ℕ) → Items ended bytes items rest
        → All HasDocument items }
    ensures joined { (begun : Option Begun) (a b : List PlainPart)
        → makes begun (a ++ b) ≡ with_items (makes begun a).items (makes (makes begun a).begun b) }
{}
