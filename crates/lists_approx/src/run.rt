//! Postings that one posting may stand for.
ghost use Rattle.std.specs.Prelude.{◌≡◌, ◌*◌, ◌/◌, ◌<◌, ◌≤◌, ◌^◌, IfSome, IsNone};
ghost use Rattle.lists_approx.specs.Steps.{IsBegun, IsLonger, IsOver};

use base_types::{Posting, Span, Tolerance};

/// Postings of one document, each of which goes on where the one before it ends, in one: with the least
/// frequency that is near all of theirs.
#[derive(Clone, Copy)]
pub(crate) struct Run {
    /// The posting that stands for them.
    pub(crate) posting: Posting,
    /// The greatest frequency that is near all of theirs.
    pub(crate) most: u64,
    pub ghost fits: { most < 2 ^ 34 },
}

/// How far a frequency may be from `tf`: the tolerance's part of it, rounded down.
fn slack(tolerance: Tolerance, tf: u32) -> u32
    requires some { 1 ≤ tf }
    ensures value { result ≡ tolerance.part * tf / tolerance.whole }
    ensures below { result < tf }
{
    let slack = u64::from(tolerance.part) * u64::from(tf) / u64::from(tolerance.whole);
    slack as u32
}

/// The run of one posting.
pub(crate) fn begun(p: &Posting, tolerance: Tolerance) -> Run
    ensures { IsBegun tolerance p.now result.posting result.most }
{
    let slack = slack(tolerance, p.tf);
    Run {
        posting: Posting {
            doc: p.doc,
            span: p.span,
            tf: p.tf - slack,
        },
        most: u64::from(p.tf) + u64::from(slack),
    }
}

/// The run and `p` in one; None where `p` doesn't go on where the run ends, or no frequency is near all
/// of theirs.
pub(crate) fn longer(run: &Run, p: &Posting, tolerance: Tolerance) -> Option<Run>
    ensures longer { IfSome result (λ next. IsLonger tolerance run.now.posting run.now.most p.now next.posting next.most) }
    ensures over { IsNone result → IsOver tolerance run.now.posting run.now.most p.now }
{
    if run.posting.doc != p.doc || run.posting.span.to != p.span.from {
        return None;
    }
    let one = begun(p, tolerance);
    let tf = run.posting.tf.max(one.posting.tf);
    let most = run.most.min(one.most);
    if most < u64::from(tf) {
        return None;
    }
    Some(Run {
        posting: Posting {
            doc: p.doc,
            span: Span {
                from: run.posting.span.from,
                to: p.span.to,
            },
            tf,
        },
        most,
    })
}
