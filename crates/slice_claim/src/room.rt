// Empty room for the jobs of a board that is closed. It lies in a table, so that threads may share
// it where a job may only move.
ghost use Rattle.std.specs.Prelude.{◌≡◌, ◌≤◌, IfOk, vec_len};
ghost use Rattle.std.specs.Vec.{vec_capacity};
ghost use Rattle.slice_claim.specs.Room.{HasRoom};

use atomic_table::{Refused, Table, TableRule};
use frac_math::OutOfMemory;
use std::alloc::Global;

struct RoomRule;

impl<J> TableRule<Vec<J>, (), u32> for RoomRule {
    ghost holds = { HasRoom };

    ghost first = { λ _. tt };
}

#[derive(Drop)]
pub(crate) struct Room<J> {
    table: Table<Vec<J>, (), u32, RoomRule, Global>,
    ghost sized: { table.shared.table_id.slots ≡ 1 },
}

impl<J: Drop> Room<J> {
    pub(crate) fn for_jobs(alloc: Global, count: u32) -> Result<Room<J>, OutOfMemory>
        ensures { IfOk result (λ room. room.table.shared.key ≡ count) }
    {
        let mut slots = Vec::with_capacity(alloc, 1)?;
        slots.push_reserved(Vec::with_capacity(alloc, count as usize)?);
        match Table::new(alloc, &[], slots, &count) {
            Ok((table, _seat)) => Ok(Room { table }),
            Err(Refused { slots: _ }) => Err(OutOfMemory),
        }
    }

    pub(crate) fn into_vec(self) -> Vec<J>
        ensures { (vec_len result ≡ 0) × (self.table.shared.key ≤ vec_capacity result) }
    {
        let Room { table } = self;
        let mut closed = table.close();
        let room = closed.take(0);
        closed.free();
        room
    }
}
