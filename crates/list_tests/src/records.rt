// Two kinds of records that are found by client and id.
ghost use Rattle.std.specs.Prelude.{◌≡◌, ◌&&◌, ◌==◌};
ghost use Rattle.list.specs.Place.{place};
ghost use Rattle.list_tests.specs.Ids.{is_id};

use list::{Keyed, find};

#[derive(Clone, Copy)]
pub struct Name {
    pub client: u32,
    pub id: u32,
}

// Its name stays when it has ended: a search has to look at more than the name.
#[derive(Clone, Copy)]
pub struct Surface {
    pub live: bool,
    pub client: u32,
    pub id: u32,
}

// A callback that has ended has no id.
#[derive(Clone, Copy)]
pub struct Callback {
    pub id: Option<u32>,
    pub client: u32,
}

impl Keyed<Name> for Surface {
    ghost bearer = { λ k s. s.live && (s.client == k.client && s.id == k.id) };

    fn bears(&self, key: &Name) -> bool {
        self.live && self.client == key.client && self.id == key.id
    }
}

impl Keyed<Name> for Callback {
    ghost bearer = { λ k s. (s.client == k.client) && is_id k.id s.id };

    fn bears(&self, key: &Name) -> bool {
        self.client == key.client && self.id == Some(key.id)
    }
}

pub(crate) fn surface_at(records: &[Surface], name: Name) -> Option<usize>
    ensures { result ≡ place (λ s. s.live && (s.client == name.client && s.id == name.id)) records.now }
{
    find(records, &name)
}

pub(crate) fn callback_at(records: &[Callback], name: Name) -> Option<usize>
    ensures { result ≡ place (λ s. (s.client == name.client) && is_id name.id s.id) records.now }
{
    find(records, &name)
}
