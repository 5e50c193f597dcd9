//! After which answers a loop may find more to do.
ghost use Rattle.std.specs.Prelude.{◌≡◌};
ghost use Rattle.step_core.specs.Replied.{reply_of};
ghost use Rattle.doorbells.specs.Rings.{directory_rings, rings};

use activation_directory::DirectoryReply;
use step_core::{Answer, Reply};

/// Whether a loop may find more to do after this answer at a queue.
pub fn rings(answer: &Answer) -> bool
    ensures { result ≡ rings answer.now }
{
    matches!(
        answer.outcome(),
        Reply::Published { .. }
            | Reply::Subscribed { .. }
            | Reply::Unsubscribed { .. }
            | Reply::RuleAdded { .. }
            | Reply::Pulled { .. }
            | Reply::Delivered { .. }
            | Reply::Rewound
            | Reply::Acked
            | Reply::Committed { .. }
            | Reply::Dropped { .. }
            | Reply::Deactivated { .. }
            | Reply::Moved { .. }
    )
}

/// Whether a loop may find more to do after this answer of the directory.
pub fn directory_rings(reply: &DirectoryReply) -> bool
    ensures { result ≡ directory_rings reply.now }
{
    matches!(reply, DirectoryReply::Left)
}
