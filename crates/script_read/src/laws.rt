//! What holds of parts whatever is read.
ghost use Rattle.std.specs.Prelude.{ℕ, Bool, List, All};
ghost use Rattle.script_read.specs.declared.part.Part.{Part};
ghost use Rattle.script_read.specs.Parts.{IsPartInRange};
ghost use Rattle.script_read.specs.Items.{Items};

/// What the parts of any bytes name is in range: documents and lengths of texts, and the number of
/// items of a batch. Does nothing.
pub fn parts_are_in_range()
    ensures { (ended : Bool) (bytes : List ℕ) (parts : List Part) (rest : List ℕ) → Items ended bytes parts rest → All IsPartInRange parts }
{}
