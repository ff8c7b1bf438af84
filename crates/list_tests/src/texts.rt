// Records that are found by a text.
ghost use Rattle.std.specs.Prelude.{◌≡◌};
ghost use Rattle.std.specs.Str.{bytes_eq};
ghost use Rattle.list.specs.Place.{place};

use list::{Keyed, find};

#[derive(Clone, Copy)]
pub struct Global {
    pub name: &'static [u8],
    pub version: u32,
}

impl<'k> Keyed<&'k [u8]> for Global {
    ghost bearer = { λ k s. bytes_eq s.name.now k.now };

    fn bears(&self, key: &&'k [u8]) -> bool {
        self.name == *key
    }
}

pub(crate) fn interface_at(records: &[Global], name: &[u8]) -> Option<usize>
    ensures { result ≡ place (λ s. bytes_eq s.name.now name.now) records.now }
{
    find(records, &name)
}
