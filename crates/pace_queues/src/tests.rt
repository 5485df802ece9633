//! What no clause says: that memory is enough, and the order of a few tickets by hand.

ghost use Rattle.std.specs.Prelude.{◌+◌, All};
ghost use Rattle.pace_queues.specs.Waiting.{HasIndexBelow};

use super::*;
use gcc_units::{Class, MOST_WAITING};
use std::test::Fail;

// Adds a ticket of 10 bytes for each index up to its own, accepted after so many milliseconds.
fn add(queues: &mut Queues, index: u32, class: Class) -> Result<(), Full>
    requires { All (HasIndexBelow index) queues.old }
    ensures { All (HasIndexBelow (index + 1)) queues.new }
{
    queues.push(Ticket {
        index,
        class,
        size: index % 100 * 10 + 10,
        accepted_at: u64::from(index) * 1_000,
    })
}

#[test]
fn audio_goes_first_and_a_rank_goes_by_arrival(rt: HostRuntime) -> Result<(), Fail> {
    let mut queues = Queues::new(rt.alloc())?;
    assert_eq!(rt; queues.head(), None);
    assert_eq!(rt; add(&mut queues, 0, Class::Video), Ok(()));
    assert_eq!(rt; add(&mut queues, 1, Class::Fec), Ok(()));
    assert_eq!(rt; add(&mut queues, 2, Class::Audio), Ok(()));
    assert_eq!(rt; add(&mut queues, 3, Class::Retransmission), Ok(()));
    assert_eq!(rt; add(&mut queues, 4, Class::Audio), Ok(()));
    assert_eq!(rt; add(&mut queues, 5, Class::Video), Ok(()));
    assert_eq!(rt; queues.bytes(), 210);
    assert_eq!(rt; queues.accepted_sum(), 15_000);
    for index in [2, 4, 3, 0, 1, 5] {
        assert_eq!(rt; queues.head().map(|ticket| ticket.index), Some(index));
        assert_eq!(rt; queues.pop().map(|ticket| ticket.index), Some(index));
    }
    assert_eq!(rt; queues.pop(), None);
    Ok(())
}

#[test]
fn each_rank_has_its_turn(rt: HostRuntime) -> Result<(), Fail> {
    let mut queues = Queues::new(rt.alloc())?;
    assert_eq!(rt; add(&mut queues, 0, Class::Video), Ok(()));
    assert_eq!(rt; add(&mut queues, 1, Class::Fec), Ok(()));
    assert_eq!(rt; add(&mut queues, 2, Class::Retransmission), Ok(()));
    assert_eq!(rt; add(&mut queues, 3, Class::Audio), Ok(()));
    for index in [3, 2, 0, 1] {
        assert_eq!(rt; queues.pop().map(|ticket| ticket.index), Some(index));
    }
    Ok(())
}

#[test]
fn the_limit_refuses_until_one_has_gone(rt: HostRuntime) -> Result<(), Fail> {
    let mut queues = Queues::new(rt.alloc())?;
    for index in 0..MOST_WAITING {
        assert_eq!(rt; add(&mut queues, index, Class::Video), Ok(()));
    }
    let refused = add(&mut queues, MOST_WAITING, Class::Video);
    assert_eq!(rt; refused.map_err(|full| full.waiting), Err(MOST_WAITING));
    assert_eq!(rt; queues.len(), MOST_WAITING);
    assert_eq!(rt; queues.pop().map(|ticket| ticket.index), Some(0));
    assert_eq!(rt; queues.len(), MOST_WAITING - 1);
    Ok(())
}
