// A bounded list of indices.
ghost use Rattle.std.specs.Prelude.{◌≤◌};

mod calls;

// At most 32 indices; the places past the count hold what nobody reads.
// Places and a count, and no vector: the core has no heap, and its lists grow by the one list that appends.
#[derive(Clone, Copy)]
pub struct Indices {
    places: [u8; 32],
    count: usize,
    ghost within: { count ≤ 32 },
}
