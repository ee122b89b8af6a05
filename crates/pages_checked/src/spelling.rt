//! Lists as bytes, by layout.
ghost use Rattle.std.specs.Prelude.{◌≡◌, IfOk, IfErr};
ghost use Rattle.lists_postings.specs.Lists.{IsList};
ghost use Rattle.pages_codec.specs.Decoding.{OrMemory};
ghost use Rattle.pages_checked.specs.Layouts.{spelling_in, Spells, SpellsNone};

use base_types::Posting;
use journal_entries::Layout;
use pages_codec::{ListError, decode_blocks, decode_list, encode_blocks, encode_list};
use std::alloc::{AllocError, Global};

/// The list that bytes spell in a layout.
pub(crate) fn decoded(
    alloc: Global,
    layout: Layout,
    bytes: &[u8],
) -> Result<Vec<Posting>, ListError>
    ensures found { IfOk result (λ v. Spells layout bytes.now v.items) }
    ensures nothing { IfErr result (OrMemory (λ _. SpellsNone layout bytes.now)) }
{
    match layout {
        Layout::Flat => decode_list(alloc, bytes),
        Layout::Blocks => decode_blocks(alloc, bytes),
    }
}

/// The bytes of a list in a layout. One pass over the list.
pub fn encoded(alloc: Global, layout: Layout, list: &[Posting]) -> Result<Vec<u8>, AllocError>
    requires { IsList list.now }
    ensures { IfOk result (λ v. v.items ≡ spelling_in layout list.now) }
{
    match layout {
        Layout::Flat => encode_list(alloc, list),
        Layout::Blocks => encode_blocks(alloc, list),
    }
}
