// A unit as the register keeps it.
ghost use Rattle.std.specs.Prelude.{◌≡◌, ◌≤◌, true};
ghost use Rattle.fleet.specs.States.{lawful};

use crate::states::STATES;
use arrayvec::ArrayVec;
use rounding::State;

mod made;
mod questions;

// The most capacity of a unit, and of all registered units together.
pub const CAPACITY: u32 = 1_000;

#[derive(Drop)]
pub struct UnitRecord {
    pub identity: u32,
    pub capacity: u32,
    states: ArrayVec<State, STATES>,
    pub serving: bool,
    ghost held: { capacity ≤ 1000 },
    ghost ruled: { lawful capacity states.items ≡ true },
}
