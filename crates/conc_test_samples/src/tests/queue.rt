use super::expect::{same, same_at};
use conc_event_queue::Queue;
use std::test::Fail;

// The seat, the key that it is given, and the least key afterwards.
static PUTS: [(usize, Option<u64>, Option<u64>); 13] = [
    (2, Some(40), Some(40)),
    (0, Some(70), Some(40)),
    (4, Some(10), Some(10)),
    (3, Some(10), Some(10)),
    (1, Some(u64::MAX), Some(10)),
    (4, None, Some(10)),
    (3, Some(90), Some(40)),
    (2, None, Some(70)),
    (1, Some(0), Some(0)),
    (1, None, Some(70)),
    (0, None, Some(90)),
    (3, None, None),
    (3, None, None),
];

#[test]
fn knows_the_least_key(rt: HostRuntime) -> Result<(), Fail> {
    let mut queue = Queue::new(rt.alloc(), 5)?;
    same(&rt, queue.len(), 5);
    assert!(rt; !queue.is_empty());
    same(&rt, queue.least(), None);
    for (slot, key, want) in PUTS {
        assert!(rt; slot < queue.len());
        queue.put(slot, key);
        same_at(&rt, queue.least(), want, slot);
    }
    Ok(())
}

#[test]
fn holds_few_slots(rt: HostRuntime) -> Result<(), Fail> {
    let none = Queue::new(rt.alloc(), 0)?;
    assert!(rt; none.is_empty());
    same(&rt, none.least(), None);
    let mut one = Queue::new(rt.alloc(), 1)?;
    for key in [Some(7), None, Some(0)] {
        assert!(rt; !one.is_empty() && one.len() == 1);
        one.put(0, key);
        same(&rt, one.least(), key);
    }
    assert!(rt; Queue::new(rt.alloc(), usize::MAX).is_err());
    Ok(())
}
