//! Tables in lent bytes: so many items, each read from the front of what is left.
ghost use Rattle.std.specs.Prelude.{◌≡◌, ◌+◌, Bool, [], ◌∷◌, length, MatchOption, IfOk};
ghost use Rattle.std.specs.Option.{option_map};
ghost use Rattle.std.specs.Iterator.{YieldsFirstBy, item_count};
ghost use Rattle.wire.specs.Formats.{Format, Reads};
ghost use Rattle.wire.specs.Tables.{follows, rising, items};

use model::fault::Fault;
use std::marker::PhantomData;

/// A kind of items that tables have. An item stands for a plain value, and may have to come behind the one before it, by a key of
/// that value.
pub trait Kind<'a>: Copy {
    type Item: Copy;

    ghost Plain: { Type 0 };

    ghost Key: { Type 0 };

    ghost form: { Format Plain };

    ghost plain: { Self.Item → Plain };

    ghost key: { Plain → Key };

    ghost below: { Key → Key → Bool };

    /// The first item of bytes, and what is behind it.
    fn read(bytes: &'a [u8]) -> Result<(Self::Item, &'a [u8]), Fault>
        ensures { Reads plain result (form.read bytes.now) };

    /// Whether one may follow another.
    fn follows(item: Self::Item, before: Self::Item) -> bool
        ensures { result ≡ below (key (plain before)) (key (plain item)) };
}

/// Whether an item may follow the last one, if there is one.
pub fn may_follow<'a, K: Kind<'a>>(last: Option<K::Item>, item: K::Item) -> bool
    ensures { result ≡ follows K.below (option_map (λ x. K.key (K.plain x)) last) (K.key (K.plain item)) }
{
    match last {
        Some(before) => K::follows(item, before),
        None => true,
    }
}

/// Items that are still to be read from bytes, which are lent: so many of them, however long each is.
#[derive(Clone, Copy)]
pub struct Table<'a, K> {
    count: u16,
    bytes: &'a [u8],
    of: PhantomData<K>,
}

impl<'a, K: Kind<'a>> Table<'a, K> {
    /// So many items, in rising order.
    pub fn read(bytes: &'a [u8], count: u16) -> Result<(Self, &'a [u8]), Fault>
        ensures counted { IfOk result (λ p. p.0.count ≡ count) }
        ensures read { Reads (λ t. items K.form t.count t.bytes.now) result ((rising K.form K.key K.below count).read bytes.now) }
    {
        let mut last = None;
        let mut rest = bytes;
        for done in 0..count {
            let (item, after) = K::read(rest)?;
            if !may_follow::<K>(last, item) {
                return Err(Fault::OutOfOrder);
            }
            last = Some(item);
            rest = after;
        }
        let of = PhantomData;
        Ok((Table { count, bytes, of }, rest))
    }

    /// The first, and those behind it.
    pub fn split_first(self) -> Option<(K::Item, Self)>
        ensures { MatchOption result (items K.form self.entry.count self.entry.bytes.now ≡ []) (λ p. (items K.form self.entry.count self.entry.bytes.now ≡ K.plain p.0 ∷ items K.form p.1.count p.1.bytes.now) × (p.1.count + 1 ≡ self.entry.count)) }
    {
        let count = self.count.checked_sub(1)?;
        let (item, bytes) = K::read(self.bytes).ok()?;
        let of = PhantomData;
        Some((item, Table { count, bytes, of }))
    }

    /// How many there are.
    pub fn len(self) -> u16
        ensures { result ≡ length (items K.form self.entry.count self.entry.bytes.now) }
    {
        self.count() as u16
    }
}

impl<'a, K: Kind<'a>> Iterator for Table<'a, K> {
    type Item = K::Item;

    ghost next_gives = { YieldsFirstBy K.plain (λ s. items K.form s.count s.bytes.now) };

    ghost remaining = { item_count (λ s. items K.form s.count s.bytes.now) };

    fn next(&mut self) -> Option<K::Item> {
        let (first, rest) = self.split_first()?;
        *self = rest;
        Some(first)
    }
}
