//! Rules of implicit subscriptions.
use crate::ident::Name;

/// Grains of a kind consume the streams of a namespace, from a batch on.
#[derive(Clone, Copy, Debug, PartialEq, Eq)]
pub struct Rule {
    /// The kind.
    pub kind: Name,
    /// The namespace.
    pub namespace: Name,
    /// The number of the first batch that it holds for.
    pub from: u64,
}
