use crate::next;
use std::process::Abort;
use std::test::Fail;
use timers::{BitmapTimers, Due, HeapTimers, NoSuchKey, Timers};

// The first by looking at every key.
fn searched(plain: &[Option<u64>; 64]) -> Option<Due> {
    (0..64u8)
        .zip(plain)
        .filter_map(|(key, deadline)| deadline.map(|deadline| Due { key, deadline }))
        .min()
}

fn due(key: u8, deadline: u64) -> Option<Due> {
    Some(Due { key, deadline })
}

// `turns` sets and stops that look random, with deadlines below `span`, so that many are equal.
fn against_a_search<T: Timers>(rt: &impl Abort, timers: &mut T, turns: u32, span: u64) {
    let mut plain = [None; 64];
    let mut seed: u64 = 7;
    for _ in 0..turns {
        seed = next(seed);
        let key = ((seed >> 33) % 64) as u8;
        let deadline = (seed >> 40) % span.max(1);
        if (seed >> 20) % 3 == 0 {
            assert_eq!(rt; timers.stop(key), Ok(()));
            plain[key as usize] = None;
        } else {
            assert_eq!(rt; timers.set(key, deadline), Ok(()));
            plain[key as usize] = Some(deadline);
        }
        assert_eq!(rt; timers.first(), searched(&plain));
    }
}

// Empty, the keys at both ends, equal deadlines, and the key that is none.
fn edges<T: Timers>(rt: &impl Abort, timers: &mut T) {
    assert_eq!(rt; timers.first(), None);
    assert_eq!(rt; timers.stop(5), Ok(()));
    assert_eq!(rt; timers.set(63, 10), Ok(()));
    assert_eq!(rt; timers.first(), due(63, 10));
    assert_eq!(rt; timers.set(0, 10), Ok(()));
    assert_eq!(rt; timers.first(), due(0, 10));
    assert_eq!(rt; timers.set(0, 11), Ok(()));
    assert_eq!(rt; timers.first(), due(63, 10));
    assert_eq!(rt; timers.set(64, 1), Err(NoSuchKey));
    assert_eq!(rt; timers.stop(255), Err(NoSuchKey));
    assert_eq!(rt; timers.first(), due(63, 10));
    assert_eq!(rt; timers.stop(63), Ok(()));
    assert_eq!(rt; timers.first(), due(0, 11));
    assert_eq!(rt; timers.stop(0), Ok(()));
    assert_eq!(rt; timers.first(), None);
}

#[test]
fn bitmap(rt: HostRuntime) {
    edges(&rt, &mut BitmapTimers::new());
    against_a_search(&rt, &mut BitmapTimers::new(), 3000, 20);
    against_a_search(&rt, &mut BitmapTimers::new(), 3000, 1 << 40);
}

#[test]
fn heap(rt: HostRuntime) {
    edges(&rt, &mut HeapTimers::new());
    against_a_search(&rt, &mut HeapTimers::new(), 3000, 20);
    against_a_search(&rt, &mut HeapTimers::new(), 3000, 1 << 40);
}

// Both on the same long list, keys above 63 among them.
#[test]
fn both_agree(rt: HostRuntime) {
    let mut heap = HeapTimers::new();
    let mut bitmap = BitmapTimers::new();
    let mut seed: u64 = 1;
    for _ in 0..20000u32 {
        seed = next(seed);
        let key = ((seed >> 33) % 66) as u8;
        let deadline = (seed >> 40) % 50;
        if (seed >> 20) % 3 == 0 {
            assert_eq!(rt; heap.stop(key), bitmap.stop(key));
        } else {
            assert_eq!(rt; heap.set(key, deadline), bitmap.set(key, deadline));
        }
        assert_eq!(rt; heap.first(), bitmap.first());
    }
}

// The bitmap looks at as many keys as run.
#[test]
fn turns_are_running_keys(rt: HostRuntime) {
    let mut bitmap = BitmapTimers::new();
    assert_eq!(rt; bitmap.first_counted().1, 0);
    for key in 0..64u8 {
        assert_eq!(rt; bitmap.set(key, 5), Ok(()));
        assert_eq!(rt; bitmap.first_counted().1, u32::from(key) + 1);
    }
}

// What is printed for debugging names the key first.
#[test]
fn due_prints(rt: HostRuntime) -> Result<(), Fail> {
    let text = format!(in rt.alloc(); "{:?}", due(5, 7))?;
    assert_eq!(rt; text.as_str(), "Some(Due { key: 5, deadline: 7 })");
    Ok(())
}
