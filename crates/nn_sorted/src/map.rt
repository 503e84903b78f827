//! The map.
ghost use Rattle.std.specs.Prelude.{◌≡◌, ◌≤◌, ◌<◌, ◌^◌, [], Some, None, ◌∷◌, ◌++◌, ◌↔◌, cond, is_some, length, OnOk, OnErr, IfOk, IfErr, IfSome, IsTrue};
ghost use Rattle.std.specs.Option.{option_copied, option_copied_mut};
ghost use Rattle.std.specs.List.Sorted.{IsStrictlySortedBy};
ghost use Rattle.std.specs.Map.{keys_of, remove_entry};
ghost use Rattle.std.specs.BTreeMap.{insert_entry, is_at};
ghost use Rattle.std.specs.Borrow.{sem};
ghost use Rattle.nn_sorted.specs.Values.{value_at, value_by, entries_from, ReplacesFirst};

use crate::chunks::{find, find_near, put, take, take_last};
use crate::entries::Entries;
use crate::seek::Seek;
use std::alloc::{AllocFailed, Global};
use std::marker::Model;
use std::mem;

// More entries than memory has room for.
const LIMIT: usize = 9223372036854775807;

/// A map whose keys are kept in order, seen as the list of its entries, by ascending key.
#[derive(Debug, Drop)]
pub struct SortedMap<K: Ord, V> {
    // No chunk is empty.
    chunks: Vec<Vec<(K, V)>>,
    len: usize,
    // Where `get_mut_near` found a key last: the place in a chunk, and 64 for each chunk before that one. A look there says
    // whether a key stands there still, so no change of the entries has to keep it right.
    recent: usize,
    alloc: Global,
}

impl<K: Ord, V> Model for SortedMap<K, V> {
    ghost use Rattle.std.specs.Prelude.{◌≡◌, ◌<◌, ◌^◌, List, length};
    ghost use Rattle.std.specs.List.Sorted.{IsStrictlySortedBy};
    ghost use Rattle.std.specs.Map.{keys_of};
    ghost use Rattle.nn_sorted.specs.Chunks.{flat, AreFilled};

    ghost Value = { List (K × V) };

    ghost view = { λ m. flat m.chunks.items };

    ghost invariant = { λ m. AreFilled m.chunks.items × IsStrictlySortedBy K.cmp (keys_of (flat m.chunks.items)) × (m.len ≡ length (flat m.chunks.items)) × (m.len < 2 ^ 63) };
}

impl<K: Ord, V> SortedMap<K, V> {
    /// Whether there is no entry. O(1).
    pub fn is_empty(&self) -> bool
        ensures { IsTrue result ↔ (self.now ≡ []) }
    {
        self.len == 0
    }

    /// Recalls to the prover that the keys of a map are in order. It does nothing when it runs.
    pub fn recall_invariant(&self)
        ensures { IsStrictlySortedBy K.cmp (keys_of self.now) }
    {
        let _ = &self.chunks;
    }

    /// Takes the last entry out. O(1).
    pub fn pop_last(&mut self) -> Option<(K, V)>
        ensures last { IfSome result (λ e. self.old ≡ self.new ++ e ∷ []) }
        ensures none { result ≡ None → (self.old ≡ []) × (self.new ≡ []) }
        ensures ordered { IsStrictlySortedBy K.cmp (keys_of self.new) }
    {
        let Some(entry) = take_last(&mut self.chunks) else {
            return None;
        };
        self.len -= 1;
        Some(entry)
    }

    /// Puts a value in place of the first entry's, and gives that one. O(1).
    pub fn replace_first(&mut self, value: V) -> V
        requires { 0 < length self.old }
        ensures value { ReplacesFirst self.old result value self.new }
        ensures ordered { IsStrictlySortedBy K.cmp (keys_of self.new) }
    {
        mem::replace(&mut self.chunks[0][0].1, value)
    }

    /// The entries from a key on, which need not be there, by ascending key. O(log entries).
    pub fn iter_from<Q: Seek<K>>(&self, key: Q) -> Entries<'_, K, V>
        ensures { result ≡ entries_from (Q.order key) self.now }
    {
        let (chunk, place) = find(&self.chunks, key);
        match place {
            Ok(place) => Entries::from(&self.chunks, chunk, place),
            Err(place) => Entries::from(&self.chunks, chunk, place),
        }
    }

    /// Frees a map without entries, also where keys and values need not be `Drop`.
    pub fn destroy_empty(self)
        requires { self ≡ [] }
    {
        let SortedMap {
            chunks,
            len: _,
            recent: _,
            alloc: _,
        } = self;
        chunks.destroy_empty();
    }
}

impl<K: Ord + Drop, V: Drop> SortedMap<K, V> {
    ghost use Rattle.nn_sorted.specs.Lends.{lends_get};

    /// A map without entries. It takes no memory.
    pub fn new(alloc: Global) -> SortedMap<K, V>
        ensures { result ≡ [] }
    {
        SortedMap {
            chunks: Vec::new(alloc),
            len: 0,
            recent: 0,
            alloc,
        }
    }

    /// How many entries there are. O(1).
    pub fn len(&self) -> usize
        ensures len { result ≡ length self.now }
        ensures small { result < 2 ^ 63 }
        ensures ordered { IsStrictlySortedBy K.cmp (keys_of self.now) }
    {
        self.len
    }

    /// The value at a key. O(log entries).
    pub fn get<Q: Seek<K>>(&self, key: Q) -> Option<&V>
        ensures value { option_copied result ≡ value_by (Q.order key) self.now }
    {
        let (chunk, place) = find(&self.chunks, key);
        let Ok(place) = place else {
            return None;
        };
        Some(&self.chunks[chunk][place].1)
    }

    /// Whether a key has a value. O(log entries).
    pub fn contains_key<Q: Seek<K>>(&self, key: Q) -> bool
        ensures { result ≡ is_some (value_by (Q.order key) self.now) }
    {
        self.get(key).is_some()
    }

    /// The value at a key, to be written. O(log entries).
    pub fn get_mut<Q: Seek<K>>(&mut self, key: Q) -> Option<&mut V>
        ensures* writes_back { sem 𝓛 (lends_get K.row V.row K.Ord self.entry (Q.order key) result) }
        ensures value { option_copied_mut result ≡ value_by (Q.order key) self.old }
        ensures ordered { IsStrictlySortedBy K.cmp (keys_of self.old) }
    {
        let (chunk, place) = find(&self.chunks, key);
        let Ok(place) = place else {
            return None;
        };
        Some(&mut self.chunks[chunk][place].1)
    }

    /// What `get_mut` gives, for keys that come again: O(1) where the key is the last one of all, or the one that the last search
    /// of this call found. Else it costs two comparisons more.
    pub fn get_mut_near<Q: Seek<K>>(&mut self, key: Q) -> Option<&mut V>
        ensures* writes_back { sem 𝓛 (lends_get K.row V.row K.Ord self.entry (Q.order key) result) }
        ensures value { option_copied_mut result ≡ value_by (Q.order key) self.old }
        ensures ordered { IsStrictlySortedBy K.cmp (keys_of self.old) }
    {
        let (near, place) = find_near(&self.chunks, &mut self.recent, key);
        let Ok(place) = place else {
            return None;
        };
        Some(&mut self.chunks[near][place].1)
    }

    /// Puts a value at a key, and gives the one that was there, if any: then the key that was there stays. O(log entries), and
    /// from time to time O(chunks).
    ///
    /// If memory runs out, the map is as it was, and the pair comes back. A key that is there takes no memory.
    pub fn insert(&mut self, key: K, value: V) -> Result<Option<V>, AllocFailed<(K, V)>>
        ensures entries { OnOk result (self.new ≡ insert_entry K.cmp self.old key value) }
        ensures updates { OnOk result ((q : K) → value_at K.cmp self.new q ≡ cond (is_at (K.cmp key) q) (Some value) (value_at K.cmp self.old q)) }
        ensures old { IfOk result (λ before. before ≡ value_at K.cmp self.old key) }
        ensures err { OnErr result (self.new ≡ self.old) }
        ensures absent { OnErr result (value_at K.cmp self.old key ≡ None) }
        ensures back { IfErr result (λ refused. refused.value ≡ (key, value)) }
        ensures ordered { IsStrictlySortedBy K.cmp (keys_of self.new) }
    {
        let (chunk, place) = find(&self.chunks, &key);
        let place = match place {
            Ok(place) => {
                let before = mem::replace(&mut self.chunks[chunk][place].1, value);
                return Ok(Some(before));
            }
            Err(place) => place,
        };
        if self.len == LIMIT {
            return Err(AllocFailed {
                value: (key, value),
            });
        }
        if let Err(refused) = put(&mut self.chunks, self.alloc, chunk, place, (key, value)) {
            return Err(refused);
        }
        self.len += 1;
        Ok(None)
    }

    /// Takes the entry of a key out, and gives its value. O(log entries + chunks).
    pub fn remove<Q: Seek<K>>(&mut self, key: Q) -> Option<V>
        ensures value { result ≡ value_by (Q.order key) self.old }
        ensures entries { self.new ≡ remove_entry (is_at (Q.order key)) self.old }
        ensures updates { (q : K) → value_at K.cmp self.new q ≡ cond (is_at (Q.order key) q) None (value_at K.cmp self.old q) }
        ensures ordered { IsStrictlySortedBy K.cmp (keys_of self.new) }
    {
        let (chunk, place) = find(&self.chunks, key);
        let Ok(place) = place else {
            return None;
        };
        let (_key, value) = take(&mut self.chunks, chunk, place);
        self.len -= 1;
        Some(value)
    }

    /// The entries, by ascending key.
    pub fn iter(&self) -> Entries<'_, K, V>
        ensures all { result ≡ self.now }
        ensures ordered { IsStrictlySortedBy K.cmp (keys_of self.now) }
    {
        Entries::new(&self.chunks)
    }
}
