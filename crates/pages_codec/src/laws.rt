//! What holds of spellings whatever is read or written. The functions do nothing when they run.
ghost use Rattle.std.specs.Prelude.{◌≡◌, ◌*◌, List, length};
ghost use Rattle.base_types.specs.declared.posting.Posting.{Posting};
ghost use Rattle.pages_codec.specs.Layouts.{IsLayout};
ghost use Rattle.pages_codec.specs.Flat.{spelling, list_at};
ghost use Rattle.pages_codec.specs.Blocks.{block_spelling, blocks_at};

/// In the flat layout spellings and lists match one to one, what is no spelling has one fault, and
/// each posting has 24 bytes.
pub fn flat_laws()
    ensures layout { IsLayout spelling list_at }
    ensures bytes { (list : List Posting) → length (spelling list) ≡ 24 * length list }
{}

/// In blocks spellings and lists match one to one, and what is no spelling has one fault.
pub fn block_laws()
    ensures { IsLayout block_spelling blocks_at }
{}
