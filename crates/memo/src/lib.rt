// A small memory of answers. An answer is kept at a place that its key gives, until another takes the place.
#![tactic(auto)]

ghost use Rattle.std.specs.Prelude.{◌≡◌, ℕ, ◌<◌, List, replicate, Some, None, Decides, slice_index_or, slice_set};
ghost use Rattle.memo.specs.Places.{Finds, Recalls};
ghost use Rattle.memo.specs.Spread.{spread as spread_of};

use std::marker::Model;

// What an answer is kept under.
pub trait Key: Copy + Drop {
    // the place of a key's answer
    ghost place: { Self → ℕ };

    fn place(self) -> usize
        ensures exact { result ≡ place self }
        ensures within { result < 16 };

    // whether two keys are one: a key need not be Eq
    fn same(self, other: Self) -> bool
        ensures { Decides result (self ≡ other) };
}

// Spreads words over the sixteen places.
pub fn spread(word: u64) -> usize
    ensures exact { result ≡ spread_of word }
    ensures within { result < 16 }
{
    (word.wrapping_mul(0x9e37_79b9_7f4a_7c15) >> 60) as usize
}

impl Key for u64 {
    ghost place = { spread_of };

    fn place(self) -> usize {
        spread(self)
    }

    fn same(self, other: u64) -> bool {
        self == other
    }
}

#[derive(Clone, Copy)]
pub struct Known<K, V> {
    pub key: K,
    pub value: V,
}

#[derive(Drop)]
pub struct Memo<K, V> {
    pub places: [Option<Known<K, V>>; 16],
}

impl<K: Key, V: Copy + Drop> Memo<K, V> {
    // A memory with no answers.
    pub fn new() -> Memo<K, V>
        ensures { result.places ≡ replicate 16 None }
    {
        Memo { places: [None; 16] }
    }

    // The answer kept under the key, if its place still has it.
    pub fn find(&self, key: K) -> Option<V>
        ensures { Finds (slice_index_or self.now.places (K.place key) None) key result }
    {
        let kept = self.places[key.place()];
        match kept {
            Some(known) if key.same(known.key) => Some(known.value),
            _ => None,
        }
    }

    // Keeps the answer at its key's place.
    pub fn keep(&mut self, key: K, value: V)
        ensures { self.new.places ≡ slice_set self.old.places (K.place key) (Some (record { key = key; value = value })) }
    {
        self.places[key.place()] = Some(Known { key, value });
    }
}

// What gives one answer for each key.
pub trait Computation {
    type Key: Key;

    type Value: Copy + Drop;

    // the answer for a key
    ghost answer: { Self → Self.Key → Self.Value };

    fn compute(&self, key: Self::Key) -> Self::Value
        ensures { result ≡ answer self.now key };
}

// A computation, with a memory of answers that it gave: a contract sees the computation alone.
#[derive(Drop)]
pub struct Recalling<C: Computation + Drop> {
    computation: C,
    memo: Memo<C::Key, C::Value>,
}

impl<C: Computation + Drop> Model for Recalling<C> {
    ghost Value = { C };

    ghost view = { λ r. r.computation };

    ghost invariant = { λ r. Recalls (λ k v. v ≡ C.answer r.computation k) r.memo.places };
}

impl<C: Computation + Drop> Recalling<C> {
    // The computation, with no answer given yet.
    pub fn new(computation: C) -> Recalling<C>
        ensures { result ≡ computation }
    {
        Recalling {
            computation,
            memo: Memo::new(),
        }
    }

    // The answer for the key, computed only where it is not in memory.
    pub fn recall(&mut self, key: C::Key) -> C::Value
        ensures answer { result ≡ C.answer self.old key }
        ensures same { self.new ≡ self.old }
    {
        if let Some(value) = self.memo.find(key) {
            return value;
        }
        self.renew(key)
    }

    // The answer for the key, computed and kept. It is a call of its own, so that an answer in memory costs no more than
    // the look there.
    #[cold]
    #[inline(never)]
    fn renew(&mut self, key: C::Key) -> C::Value
        ensures answer { result ≡ C.answer self.old key }
        ensures same { self.new ≡ self.old }
    {
        let value = self.computation.compute(key);
        self.memo.keep(key, value);
        value
    }
}
