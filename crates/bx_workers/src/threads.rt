//! That workers may go from one thread to another, and that threads may share a problem. Nothing here runs: what a
//! type lacks is refused here, and not first where threads are started.

use crate::problem::Problem;
use crate::results::Tried;
use crate::worker::Worker;

fn is_shared<T: Sync>(_: &T) {}

fn moves<T: Send>(_: &T) {}

fn workers_take_part(problem: &Problem, worker: &Worker, tried: &Tried) {
    is_shared(problem);
    moves(worker);
    moves(tried);
}
