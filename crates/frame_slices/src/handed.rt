// A slice on its way to the worker that converts it, and what comes back.
ghost use Rattle.std.specs.Prelude.{◌≡◌, ◌+◌, ◌<◌, ◌≤◌, false, vec_len};
ghost use Rattle.std.proofs.Props.{props};
ghost use Rattle.pix_desc.specs.Layouts.{IsValid};
ghost use Rattle.pix_desc.specs.Frame.{frame_length};

use crate::frame_slice::Place;
use std::sync::{Mutex, OnceLock};

/// A slice that was read. The room for its rows of the target lies under a lock, where the worker
/// that claimed the slice takes it.
#[derive(Drop)]
pub struct Handed {
    pub(crate) place: Place,
    pub(crate) input: Vec<u8>,
    pub(crate) room: Mutex<Option<Vec<u8>>>,
    pub ghost source: { IsValid place.source } by { Prim.hlevel props },
    pub ghost target: { IsValid place.target } by { Prim.hlevel props },
    pub ghost plain: { place.target.palette ≡ false },
    pub ghost width: { place.width ≤ 16384 },
    pub ghost some: { 0 < place.rows },
    pub ghost last: { place.first + place.rows ≤ 16384 },
    pub ghost input_size: { vec_len input ≡ frame_length place.source place.width place.rows },
}

/// Where a slice is handed over: empty until it is read, and filled with nothing where it will not
/// be.
pub type Cell = OnceLock<Option<Handed>>;

/// The rows of the target of a slice.
#[derive(Drop)]
pub struct TargetRows {
    pub(crate) place: Place,
    pub(crate) bytes: Vec<u8>,
    pub ghost source: { IsValid place.source } by { Prim.hlevel props },
    pub ghost target: { IsValid place.target } by { Prim.hlevel props },
    pub ghost plain: { place.target.palette ≡ false },
    pub ghost width: { place.width ≤ 16384 },
    pub ghost some: { 0 < place.rows },
    pub ghost last: { place.first + place.rows ≤ 16384 },
    pub ghost size: { vec_len bytes ≡ frame_length place.target place.width place.rows },
}
