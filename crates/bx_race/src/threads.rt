//! That threads may share a race, and that a seat may go from one to another. Nothing here runs: what a
//! type lacks is refused here, and not first where a crate above starts threads.

use crate::race::Race;
use crate::seat::RaceSeat;

fn is_shared<T: Sync>(_: &T) {}

fn moves<T: Send>(_: &T) {}

fn workers_take_part(race: &Race, seat: &RaceSeat) {
    is_shared(race);
    moves(seat);
}
