// The part of an element that lies on the output, along one axis.
ghost use Rattle.raster.specs.Clip.{Clipped};

// `count` places of an axis from `from` on, the first of which is place `skip` of an element.
#[derive(Clone, Copy)]
pub(crate) struct Run {
    pub(crate) from: usize,
    pub(crate) skip: usize,
    pub(crate) count: usize,
}

// What of the `n` places from `p` on lies below `limit`.
pub(crate) fn clip(p: i32, n: usize, limit: usize) -> Run
    ensures { Clipped p n limit result }
{
    if p >= 0 {
        let from = (p as usize).min(limit);
        Run {
            from,
            skip: 0,
            count: n.min(limit - from),
        }
    } else {
        let skip = (p.unsigned_abs() as usize).min(n);
        Run {
            from: 0,
            skip,
            count: limit.min(n - skip),
        }
    }
}
