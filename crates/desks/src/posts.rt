//! The messages between two endpoints.

ghost use Rattle.desks.specs.Posts.{Follows};

use crate::telling::Told;
use rtrb::Protocol;
use std::alloc::Global;
use std::sync::Arc;

/// A message between two endpoints: first the key, and then items.
#[derive(Drop)]
pub enum Post<K, T> {
    /// The key.
    Key(K),
    /// An item, which several endpoints may hold.
    Item(Arc<T, Global>),
}

/// The protocol of a ring: each item holds under the key that was sent first.
#[derive(Clone, Copy)]
pub struct OfOneKey;

impl<K, T: Told<K>> Protocol<Post<K, T>> for OfOneKey {
    ghost allows = { Follows T.holds };
}
