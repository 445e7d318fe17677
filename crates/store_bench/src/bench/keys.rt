//! The keys of a store under test: values that can be keys, and what is found among those of a dictionary.
ghost use Rattle.std.specs.Prelude.{◌≡◌, true};
ghost use Rattle.py_data.specs.declared.value.Value.TheVariants.{Ref};
ghost use Rattle.py_data.specs.Heap.{at};
ghost use Rattle.py_data.specs.Shape.{IsKey, ArePairs};
ghost use Rattle.seg_store.specs.Meaning.{sees};
ghost use Rattle.seg_store.specs.Store.{CanFind};

use super::Bench;
use crate::insists::Insists;
use crate::kinds::is_key_kind;
use py_data::{Addr, Kind, Value};
use seg_store::SegStore;

impl<S: SegStore> Bench<S> {
    /// A record is there that can be a key.
    #[tactic(auto, using(crate::proofs::There::key_there))]
    fn is_key_record(&self, rt: &impl Insists, k: u8, a: Addr) -> bool
        ensures { result ≡ true → IsKey (sees (S.meaning self.now.store) k) (Ref a) }
    {
        if !self.there(k, a) {
            return false;
        }
        is_key_kind(self.kind(rt, k, a))
    }

    /// A value that can be a key, as the segment sees it.
    pub fn is_key(&self, rt: &impl Insists, k: u8, v: Value) -> bool
        ensures { result ≡ true → IsKey (sees (S.meaning self.now.store) k) v }
    {
        match v {
            Value::Unset => false,
            Value::None => true,
            Value::Bool(_) => true,
            Value::Int(_) => true,
            Value::Ref(a) => self.is_key_record(rt, k, a),
            Value::Builtin(_) => true,
        }
    }

    /// The values are pairs, whose keys are possible ones.
    #[tactic(auto, using(crate::proofs::PairsLeft::pairs_before))]
    fn are_pairs(&self, rt: &impl Insists, k: u8, d: Addr) -> bool
        ensures pairs { result ≡ true → (let h = sees (S.meaning self.now.store) k in ArePairs h (at h d.0).values) }
    {
        let n = self.count(rt, k, d);
        let mut left = n;
        'pairs: while left > 0 {
            if left < 2 {
                return false;
            }
            left -= 2;
            if !self.is_key(rt, k, self.val(rt, k, d, left)) {
                return false;
            }
        }
        true
    }

    /// A Dict whose keys are possible ones, among which a value can be looked for.
    #[tactic(auto, using(crate::proofs::There::find_there))]
    pub fn can_find(&self, rt: &impl Insists, k: u8, d: Addr, key: Value) -> bool
        ensures { result ≡ true → CanFind (sees (S.meaning self.now.store) k) d.0 key }
    {
        if self.kind(rt, k, d) != Kind::Dict {
            return false;
        }
        self.is_key(rt, k, key) && self.are_pairs(rt, k, d)
    }

    pub fn find_key(&self, rt: &impl Insists, k: u8, d: Addr, key: Value) -> Option<usize> {
        rt.insist(k < self.store.segments(), "the segment is there");
        rt.insist(self.can_find(rt, k, d, key), "the key can be looked for");
        self.store.find_key(k, d, key)
    }
}
