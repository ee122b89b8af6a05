//! What holds of every reply.
ghost use Rattle.std.specs.Prelude.{◌≡◌, ◌≤◌, length};
ghost use Rattle.model_archive.specs.Replies.{reply_text};
ghost use Rattle.model_archive.specs.Steps.{Reply, Silent};

/// The text of a reply is empty only where there is nothing to say, so showing any other shows at least one
/// byte. It does nothing.
pub fn replies_have_bytes()
    ensures { (r : Reply) → (r ≡ Silent → ⊥) → 1 ≤ length (reply_text r) }
{}
