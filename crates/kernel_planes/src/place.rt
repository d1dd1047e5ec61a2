// Where the values of a pixel stand.
ghost use Rattle.std.specs.Prelude.{◌≡◌, ◌+◌, ◌<◌, take};
ghost use Rattle.std.specs.Prelude.{sum, slice_index};

/// Which element of a pixel in which plane a value is.
#[derive(Clone, Copy)]
pub struct Place {
    /// The plane.
    pub plane: usize,
    /// The element of the pixel in this plane.
    pub element: usize,
}

/// The place of value v of a pixel that has so many elements in each plane.
pub fn place_of(planes: &[u8; 4], v: usize) -> Place
    requires there { v < sum planes.now }
    ensures plane { result.plane < 4 }
    ensures element { result.element < slice_index planes.now result.plane }
    ensures value { v ≡ sum (take result.plane planes.now) + result.element }
{
    let mut before = 0;
    for p in 0..4 {
        let count = usize::from(planes[p]);
        if v < before + count {
            return Place {
                plane: p,
                element: v - before,
            };
        }
        before += count;
    }
    unreachable!()
}
