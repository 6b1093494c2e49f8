//! Endpoints: the ends of the rings.

ghost use Rattle.std.specs.Prelude.{◌≡◌, length, All, IfOk, IfSome};
ghost use Rattle.std.specs.Arc.{arc_value};
ghost use Rattle.desks.specs.Posts.{IsToldUnder, IsHeardUnder};

use crate::posts::{OfOneKey, Post};
use crate::telling::Told;
use rtrb::{Consumer, Producer, RingBuffer};
use std::alloc::{AllocError, Global};
use std::marker::Model;
use std::sync::Arc;

// How many items the ring from one endpoint to another may hold. Where more are sent they are lost.
const ROOM: usize = 64;

/// A thread's endpoint, with a ring to and from each other endpoint of its key.
///
/// In contracts it is its key.
#[derive(Drop)]
pub struct Desk<K: Drop, T: Told<K> + Drop> {
    key: K,
    to: Vec<Producer<Post<K, T>, Global, OfOneKey>>,
    from: Vec<Consumer<Post<K, T>, Global, OfOneKey>>,
}

impl<K: Drop, T: Told<K> + Drop> Model for Desk<K, T> {
    ghost use Rattle.std.specs.Prelude.{All};
    ghost use Rattle.desks.specs.Posts.{IsToldUnder, IsHeardUnder};

    ghost Value = { K };

    ghost view = { λ d. d.key };

    ghost invariant = { λ d. All (IsToldUnder d.key) d.to.items × All (IsHeardUnder d.key) d.from.items };
}

impl<K: Copy + Drop, T: Told<K> + Drop> Desk<K, T> {
    // An endpoint of this key, with no ring.
    fn new(alloc: Global, key: K) -> Desk<K, T>
        ensures { result ≡ key }
    {
        Desk {
            key,
            to: Vec::new(alloc),
            from: Vec::new(alloc),
        }
    }

    /// Sends the item to all other endpoints. It is lost where a ring is full.
    pub fn tell(&mut self, item: &Arc<T, Global>) -> Result<(), AllocError>
        requires holds { T.holds self.old (arc_value item.now) }
        ensures { self.new ≡ self.old }
    {
        for at in 0..self.to.len() {
            let told = Arc::try_clone(item)?;
            let _ = self.to[at].push(Post::Item(told));
        }
        Ok(())
    }

    /// Appends the items received from other endpoints to `items`.
    pub fn hear(&mut self, items: &mut Vec<Arc<T, Global>>) -> Result<(), AllocError>
        requires held { All (λ a. T.holds self.old (arc_value a)) items.old.items }
        ensures key { self.new ≡ self.old }
        ensures held { All (λ a. T.holds self.old (arc_value a)) items.new.items }
    {
        for at in 0..self.from.len() {
            hear_from(&self.key, &mut self.from[at], items)?;
        }
        Ok(())
    }
}

// Appends the items in this ring, where the key has gone.
fn hear_from<K: Drop, T: Told<K> + Drop>(
    key: &K,
    from: &mut Consumer<Post<K, T>, Global, OfOneKey>,
    items: &mut Vec<Arc<T, Global>>,
) -> Result<(), AllocError>
    requires heard { IsHeardUnder key.now from.old }
    requires held { All (λ a. T.holds key.now (arc_value a)) items.old.items }
    ensures heard { IsHeardUnder key.now from.new }
    ensures held { All (λ a. T.holds key.now (arc_value a)) items.new.items }
{
    for _ in 0..ROOM {
        let Some(item) = next(key, from) else {
            break;
        };
        items.push(item)?;
    }
    Ok(())
}

// The next item in the ring, if there is one.
fn next<K: Drop, T: Told<K> + Drop>(
    _key: &K,
    from: &mut Consumer<Post<K, T>, Global, OfOneKey>,
) -> Option<Arc<T, Global>>
    requires { IsHeardUnder _key.now from.old }
    ensures heard { IsHeardUnder _key.now from.new }
    ensures holds { IfSome result (λ a. T.holds _key.now (arc_value a)) }
{
    match from.pop() {
        Ok(Post::Item(item)) => Some(item),
        _ => None,
    }
}

// Adds a ring through which the key has gone: its sending end to `to`, its receiving end to `from`.
fn link<K: Copy + Drop, T: Told<K> + Drop>(
    alloc: Global,
    key: K,
    to: &mut Vec<Producer<Post<K, T>, Global, OfOneKey>>,
    from: &mut Vec<Consumer<Post<K, T>, Global, OfOneKey>>,
) -> Result<(), AllocError>
    requires to { All (IsToldUnder key) to.old.items }
    requires from { All (IsHeardUnder key) from.old.items }
    ensures to { All (IsToldUnder key) to.new.items }
    ensures from { All (IsHeardUnder key) from.new.items }
{
    let (mut teller, mut hearer) = RingBuffer::<Post<K, T>>::with_protocol::<Global, OfOneKey>(
        alloc, ROOM,
    )?;
    teller.push_reserved(Post::Key(key));
    hearer.slots_beside(&mut teller);
    hearer.pop_known();
    to.push(teller)?;
    from.push(hearer)?;
    Ok(())
}

// Links two endpoints of one key, with a ring each way.
fn link_both<K: Copy + Drop, T: Told<K> + Drop>(
    alloc: Global,
    one: &mut Desk<K, T>,
    other: &mut Desk<K, T>,
) -> Result<(), AllocError>
    requires { other.old ≡ one.old }
    ensures one { one.new ≡ one.old }
    ensures other { other.new ≡ other.old }
{
    link(alloc, one.key, &mut one.to, &mut other.from)?;
    link(alloc, one.key, &mut other.to, &mut one.from)
}

/// `count` endpoints of this key, with a ring for each ordered pair.
pub fn desks<K: Copy + Drop, T: Told<K> + Drop>(
    alloc: Global,
    key: K,
    count: u32,
) -> Result<Vec<Desk<K, T>>, AllocError>
    ensures keys { IfOk result (λ v. All (λ d. d ≡ key) v.items) }
    ensures count { IfOk result (λ v. length v.items ≡ count) }
{
    let mut desks = Vec::with_capacity(alloc, count as usize)?;
    for _ in 0..count {
        let mut desk = Desk::new(alloc, key);
        for at in 0..desks.len() {
            link_both(alloc, &mut desk, &mut desks[at])?;
        }
        desks.push(desk)?;
    }
    Ok(desks)
}
