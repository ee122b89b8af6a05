//! Links from a change to earlier ones of its document.
ghost use Rattle.std.specs.Prelude.{◌≡◌, ◌+◌, ◌<◌, ◌≤◌, length, Some, None};
ghost use Rattle.lists_versions.specs.Links.{AreBack, IsJump};

/// The way back from a change to earlier changes of its document.
///
/// A change is the head of a skew-binary list of its document's changes (E. W. Myers, An applicative
/// random-access stack, 1983), so that a walk which jumps wherever it may ends after steps in the
/// logarithm of their number.
#[derive(Clone, Copy, Debug)]
pub(crate) struct Link {
    /// The place in the log of the document's change before this one; None at its first change.
    pub(crate) before: Option<usize>,
    /// The place of an earlier change of the document; the change's own place at the first.
    pub(crate) jump: usize,
    /// How many of the document's changes the jump goes back.
    pub(crate) span: usize,
}

impl Link {
    /// The link of a document's first change.
    pub(crate) fn first(place: usize) -> Link
        ensures { result ≡ record { before = None; jump = place; span = 0 } }
    {
        Link {
            before: None,
            jump: place,
            span: 0,
        }
    }

    /// The link of a change that comes next behind the one at the place `before`.
    pub(crate) fn behind(links: &[Link], before: usize) -> Link
        requires there { before < length links.now }
        requires back { AreBack links.now }
        ensures before { result.before ≡ Some before }
        ensures back { result.jump + result.span ≤ before + 1 }
        ensures moves { 1 ≤ result.span }
        ensures jump { IsJump links.now before result.jump }
    {
        let last = links[before];
        let far = links[last.jump];
        if last.span == far.span {
            Link {
                before: Some(before),
                jump: far.jump,
                span: 1 + last.span + far.span,
            }
        } else {
            Link {
                before: Some(before),
                jump: before,
                span: 1,
            }
        }
    }
}
