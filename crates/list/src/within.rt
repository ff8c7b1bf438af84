// A push onto places of which the first are filled: the step of every bounded list.
ghost use Rattle.std.specs.Prelude.{◌≡◌, ◌≤◌, length, take};
ghost use Rattle.list.specs.Bounded.{pushed};

use super::appender::Appender;

// One more after the first `count`; full places stay as they are. Answers how many are filled then.
// Places and a count, as the lists that push by it hold them: the core has no heap.
pub fn push_within<T: Copy>(places: &mut [T], count: usize, x: T) -> usize
    ensures elements { count ≤ length places.old → take result places.new ≡ pushed (length places.old) (take count places.old) x }
    ensures within { count ≤ length places.old → result ≤ length places.old }
{
    let mut list = Appender::resume(places, count);
    list.push(x);
    list.count()
}
