//! What the calls do one after the other.

use crate::asserts::{is_order, is_variable};
use bx_queue::MoveFront;
use std::alloc::Global;
use std::test::Fail;

// The free variables of a queue in their order, of which there are at most so many.
fn free_of(alloc: Global, mut queue: MoveFront, most: u32) -> Result<Vec<u32>, Fail> {
    let mut free = Vec::new(alloc);
    for _ in 0..most {
        if let Some(var) = queue.first_unassigned() {
            queue.assigned(var);
            free.push(var)?;
        }
    }
    Ok(free)
}

#[test]
fn a_fresh_queue_begins_at_1(rt: HostRuntime) -> Result<(), Fail> {
    let mut queue = MoveFront::new(rt.alloc(), 3)?;
    is_variable(&rt, queue.first_unassigned(), Some(1));
    Ok(())
}

#[test]
fn the_others_keep_their_order(rt: HostRuntime) -> Result<(), Fail> {
    let mut queue = MoveFront::new(rt.alloc(), 3)?;
    queue.to_front(2);
    is_order(&rt, &free_of(rt.alloc(), queue, 3)?, &[2, 1, 3]);
    Ok(())
}

#[test]
fn the_last_moves_to_the_front(rt: HostRuntime) -> Result<(), Fail> {
    let mut queue = MoveFront::new(rt.alloc(), 3)?;
    queue.to_front(3);
    queue.to_front(2);
    is_order(&rt, &free_of(rt.alloc(), queue, 3)?, &[2, 3, 1]);
    Ok(())
}

#[test]
fn who_is_taken_is_passed_by(rt: HostRuntime) -> Result<(), Fail> {
    let mut queue = MoveFront::new(rt.alloc(), 3)?;
    queue.to_front(2);
    queue.assigned(2);
    is_variable(&rt, queue.first_unassigned(), Some(1));
    queue.freed(2);
    is_variable(&rt, queue.first_unassigned(), Some(2));
    Ok(())
}

#[test]
fn who_is_taken_moves_too(rt: HostRuntime) -> Result<(), Fail> {
    let mut queue = MoveFront::new(rt.alloc(), 3)?;
    queue.assigned(2);
    queue.to_front(3);
    queue.to_front(2);
    is_variable(&rt, queue.first_unassigned(), Some(3));
    queue.freed(2);
    is_variable(&rt, queue.first_unassigned(), Some(2));
    Ok(())
}

#[test]
fn where_all_are_taken_none_is_free(rt: HostRuntime) -> Result<(), Fail> {
    let mut queue = MoveFront::new(rt.alloc(), 2)?;
    queue.assigned(1);
    queue.assigned(2);
    is_variable(&rt, queue.first_unassigned(), None);
    queue.freed(2);
    is_variable(&rt, queue.first_unassigned(), Some(2));
    Ok(())
}

#[test]
fn a_queue_of_no_variables_has_none(rt: HostRuntime) -> Result<(), Fail> {
    let mut queue = MoveFront::new(rt.alloc(), 0)?;
    is_variable(&rt, queue.first_unassigned(), None);
    Ok(())
}

#[test]
fn at_the_last_stamp_all_are_numbered_anew(rt: HostRuntime) -> Result<(), Fail> {
    let mut queue = MoveFront::with_stamp(rt.alloc(), 3, u32::MAX)?;
    queue.to_front(3);
    queue.assigned(3);
    queue.assigned(1);
    is_variable(&rt, queue.first_unassigned(), Some(2));
    queue.freed(1);
    queue.freed(3);
    is_variable(&rt, queue.first_unassigned(), Some(3));
    Ok(())
}

// Takes the first free variable so often, and moves it to the front.
fn take_and_move(queue: &mut MoveFront, times: u32) {
    for _ in 0..times {
        if let Some(var) = queue.first_unassigned() {
            queue.assigned(var);
            queue.to_front(var);
        }
    }
}

// Where a search began at the first, or a move shifted all before the variable, this would take half a
// million million steps.
#[test]
fn a_million_variables_take_few_steps_each(rt: HostRuntime) -> Result<(), Fail> {
    let mut queue = MoveFront::new(rt.alloc(), 1_000_000)?;
    take_and_move(&mut queue, 999_999);
    is_variable(&rt, queue.first_unassigned(), Some(1_000_000));
    take_and_move(&mut queue, 1);
    is_variable(&rt, queue.first_unassigned(), None);
    Ok(())
}
