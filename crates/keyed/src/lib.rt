// Records that tell their key, and the one search by key that serves them all.
#![tactic(auto)]

ghost use Rattle.std.specs.Prelude.{◌≡◌, ◌↔◌, IsTrue, MatchOption};
ghost use Rattle.keyed.specs.Search.{First, Nowhere};

// A record that tells a key of type `K`. A record type may tell several keys of different types.
pub trait Keyed<K> {
    // The record's key.
    ghost key: { Self → K };

    // Whether this is the record's key. Each type compares for itself: that `==` of a type parameter means equality
    // would be one more law to ask of the key.
    fn has_key(&self, wanted: &K) -> bool
        ensures { IsTrue result ↔ (key self.now ≡ wanted.now) };
}

// The index of the first record with the wanted key, or none where no record has it.
pub fn find<K, R: Keyed<K>>(records: &[R], wanted: &K) -> Option<usize>
    ensures { MatchOption result (Nowhere R.Keyed.key wanted.now records.now) (λ i. First R.Keyed.key wanted.now records.now i) }
{
    records.iter().position(|record| record.has_key(wanted))
}
