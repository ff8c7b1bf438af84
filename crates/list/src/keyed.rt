// Finding a record by a key, once for every kind of record and every kind of key.
ghost use Rattle.std.specs.Prelude.{◌≡◌, ◌<◌, Bool, length, is_some, IfSome};
ghost use Rattle.std.specs.List.{list_any, position};
ghost use Rattle.list.specs.Place.{place};

// A record that may bear a key.
pub trait Keyed<K> {
    ghost bearer: { K → Self → Bool };

    fn bears(&self, key: &K) -> bool
        ensures { result ≡ bearer key.now self.now };
}

// The first place of a record that bears a key, in the library's words: the public search says it in those of the rules.
fn first_bearer<K, R: Keyed<K>>(records: &[R], key: &K) -> Option<usize>
    ensures first { result ≡ position (R.bearer key.now) records.now }
    ensures within { IfSome result (λ i. i < length records.now) }
{
    records.iter().position(|record| record.bears(key))
}

// The first place of a record that bears a key; none exactly if no record does.
// By `take_all` the check knows what a part of the records is, so that an edit which searches one is refused for what it leaves out.
#[tactic(auto, using(crate::proofs::Places::position_place, crate::proofs::Places::place_any, std::proofs::lemmas::List::take_all))]
pub fn find<K, R: Keyed<K>>(records: &[R], key: &K) -> Option<usize>
    ensures first { result ≡ place (R.bearer key.now) records.now }
    ensures within { IfSome result (λ i. i < length records.now) }
    ensures found { is_some result ≡ list_any (R.bearer key.now) records.now }
{
    first_bearer(records, key)
}
