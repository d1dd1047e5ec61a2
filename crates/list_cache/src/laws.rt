// Which types may cross threads.
use crate::cache::ListCache;
use crate::cell_note::CellNote;

/// A cache may be moved to another thread and shared between threads, and a note may be moved. That
/// this has a proof is all that it says.
pub fn crosses_threads() {
    may_move::<ListCache>();
    may_be_shared::<ListCache>();
    may_move::<CellNote>();
}

fn may_move<T: Send>() {}

fn may_be_shared<T: Sync>() {}
