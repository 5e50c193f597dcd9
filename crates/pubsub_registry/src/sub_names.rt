//! Names of subscriptions, by their numbers.
ghost use Rattle.std.specs.Prelude.{◌≡◌, ◌<◌, ◌↔◌, Some, All, IsTrue, length, slice_get};
ghost use Rattle.std.specs.Map.{keys_of};
ghost use Rattle.pubsub_registry.specs.Index.{names_at};

use crate::indexed::Subscriptions;
use std::marker::Model;
use stream_ident::SubName;

/// The names of some of a registry's subscriptions. It borrows the registry's names and copies nothing.
///
/// A contract sees it as the list of the names.
#[derive(Drop)]
pub struct SubNames<'a> {
    subscriptions: &'a Subscriptions,
    numbers: &'a [u32],
}

impl<'a> Model for SubNames<'a> {
    ghost use Rattle.std.specs.Prelude.{◌<◌, List, All, length};
    ghost use Rattle.std.specs.Map.{keys_of};
    ghost use Rattle.stream_ident.specs.declared.ident.SubName.{SubName};
    ghost use Rattle.pubsub_registry.specs.Index.{names_at};

    ghost Value = { List SubName };

    ghost view = { λ s. names_at (keys_of s.subscriptions.now) s.numbers.now };

    ghost invariant = { λ s. All (λ number. number < length s.subscriptions.now) s.numbers.now };
}

impl<'a> SubNames<'a> {
    /// The names of the subscriptions with these numbers, in the order of the numbers.
    pub(crate) fn new(subscriptions: &'a Subscriptions, numbers: &'a [u32]) -> SubNames<'a>
        requires { All (λ number. number < length subscriptions.now) numbers.now }
        ensures { result ≡ names_at (keys_of subscriptions.now) numbers.now }
    {
        SubNames {
            subscriptions,
            numbers,
        }
    }

    /// How many names there are.
    pub fn len(&self) -> usize
        ensures { result ≡ length self.now }
    {
        self.numbers.len()
    }

    /// Whether there are no names.
    pub fn is_empty(&self) -> bool
        ensures { IsTrue result ↔ (length self.now ≡ 0) }
    {
        self.len() == 0
    }

    /// The name at a place.
    pub fn at(&self, index: usize) -> SubName
        requires { index < length self.now }
        ensures { slice_get self.now index ≡ Some result }
    {
        let numbers = self.numbers;
        self.subscriptions.name(numbers[index] as usize)
    }
}
