//! What a key is looked for by.
ghost use Rattle.std.specs.Prelude.{◌≡◌, IsTrue};
ghost use Rattle.std.specs.declared.cmp.Ordering.{Ordering};
ghost use Rattle.std.specs.declared.cmp.Ordering.TheVariants.{Less, Equal};
ghost use Rattle.std.specs.Ordering.{is_eq, is_le};
ghost use Rattle.std.specs.BTreeMap.Comparable.{le_lt_trans};

use std::cmp::Ordering;

/// What a key is looked for by: a key itself, or what compares to keys as a key does.
pub trait Seek<K: Ord>: Copy {
    /// How it compares to each key.
    ghost order: { Self → K → Ordering };

    /// How it compares to a key.
    fn compare(&self, key: &K) -> Ordering
        ensures { result ≡ order self.now key.now };

    /// Whether it is equal to a key. A type for which that costs less than a comparison says so by a body of its own.
    fn equals(&self, key: &K) -> bool
        ensures { result ≡ is_eq (order self.now key.now) }
    {
        self.compare(key).is_eq()
    }

    /// What is equal to a key compares to each key as that one does.
    ghost same: { (q : Self) (x y : K) → order q x ≡ Equal → order q y ≡ K.cmp x y };

    /// What is not above a key is below each greater one.
    ghost below: { (q : Self) (x y : K) → IsTrue (is_le (order q x)) → K.cmp x y ≡ Less → order q y ≡ Less };
}

impl<K: Ord> Seek<K> for &K {
    ghost order = { λ q. K.cmp q.now };

    ghost same = { λ q. K.total.congr q.now };

    ghost below = { λ q. le_lt_trans K.total q.now };

    fn compare(&self, key: &K) -> Ordering {
        (*self).cmp(key)
    }
}
