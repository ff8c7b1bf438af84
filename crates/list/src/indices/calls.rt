// What a bounded list of indices can do.
ghost use Rattle.std.specs.Prelude.{◌≡◌, [], length};
ghost use Rattle.list.specs.Bounded.{elements, pushed};

use super::Indices;
use crate::within::push_within;

impl Indices {
    // No index.
    pub fn new() -> Indices
        ensures { elements result ≡ [] }
    {
        Indices {
            places: [0; 32],
            count: 0,
        }
    }

    pub fn len(&self) -> usize
        ensures { result ≡ length (elements self.now) }
    {
        self.count // at most 32
    }

    pub fn as_slice(&self) -> &[u8]
        ensures { result.now ≡ elements self.now }
    {
        &self.places[..self.count]
    }

    // One more at the end; a full list stays as it is.
    pub fn push(&mut self, index: u8)
        ensures { elements self.new ≡ pushed 32 (elements self.old) index }
    {
        let count = self.count;
        self.count = push_within(&mut self.places, count, index);
    }
}
