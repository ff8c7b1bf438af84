// The list that appends: places lent by a caller, filled from the first on.
ghost use Rattle.std.specs.Prelude.{◌≡◌, [], ◌∷◌};
ghost use Rattle.list.specs.Appended.{Appended};

// The lender has its places back, with what was pushed, when the appender is gone.
// Places and a count, and no vector: the places are the caller's, since the core has no heap.
#[derive(Drop)]
pub struct Appender<'a, T> {
    places: &'a mut [T],
    count: usize,
}

impl<'a, T: Copy> Appender<'a, T> {
    // An empty list over these places.
    pub fn new(places: &'a mut [T]) -> Appender<'a, T>
        ensures count { result.count ≡ 0 }
        ensures places { result.places.now ≡ places.old }
        ensures lender { result.places.ghost_name ≡ places.entry.ghost_name }
    {
        Appender::resume(places, 0)
    }

    // A list over places of which the first `count` are filled.
    pub fn resume(places: &'a mut [T], count: usize) -> Appender<'a, T>
        ensures count { result.count ≡ count }
        ensures places { result.places.now ≡ places.old }
        ensures lender { result.places.ghost_name ≡ places.entry.ghost_name }
    {
        Appender { places, count }
    }

    // How many were pushed and found a place.
    pub fn count(&self) -> usize
        ensures { result ≡ self.now.count }
    {
        self.count // what found no place is not counted
    }

    // One more at the end; a full list stays as it is.
    pub fn push(&mut self, x: T)
        ensures { Appended self.old self.new (x ∷ []) }
    {
        if self.count < self.places.len() {
            self.places[self.count] = x;
            self.count += 1;
        }
    }
}
