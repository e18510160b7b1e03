//! Tests lists of keys in two lanes, by walks along them.

ghost use Rattle.std.specs.Prelude.{◌<◌, length};
ghost use Rattle.link_lists.specs.Lanes.{lane_of};

use link_lists::{Lane, Woven};
use std::process::Abort;
use std::test::Fail;

// The first list of this lane has these keys.
fn has(rt: &impl Abort, woven: &Woven<u8>, lane: Lane, want: &[usize])
    requires { 0 < length (lane_of lane woven.now) }
{
    let mut at = woven.front(lane, 0);
    for key in want {
        let Some(found) = at else {
            panic!(rt; "a key is missing");
        };
        assert_eq!(rt; found, *key);
        at = woven.next(lane, found);
    }
    assert_eq!(rt; at, None);
}

#[test]
fn lists(rt: HostRuntime) -> Result<(), Fail> {
    let alloc = rt.alloc();
    let mut woven: Woven<u8> = Woven::new(alloc);
    assert_eq!(rt; woven.add_list(Lane::First)?, 0);
    assert_eq!(rt; woven.add_list(Lane::Second)?, 0);
    woven.reserve(3)?;
    assert!(rt; woven.spare() >= 3);
    let a = woven.insert(10);
    let b = woven.insert(20);
    let c = woven.insert(30);
    woven.push_back(Lane::First, 0, a);
    woven.push_back(Lane::First, 0, b);
    woven.push_back(Lane::First, 0, c);
    woven.push_back(Lane::Second, 0, c);
    woven.push_back(Lane::Second, 0, a);
    has(&rt, &woven, Lane::First, &[a, b, c]);
    has(&rt, &woven, Lane::Second, &[c, a]);
    woven.unlink(Lane::First, b);
    has(&rt, &woven, Lane::First, &[a, c]);
    has(&rt, &woven, Lane::Second, &[c, a]);
    woven.insert_after(Lane::First, a, b);
    has(&rt, &woven, Lane::First, &[a, b, c]);
    has(&rt, &woven, Lane::Second, &[c, a]);
    woven.unlink(Lane::First, c);
    woven.unlink(Lane::Second, c);
    assert_eq!(rt; woven.remove(c), 30);
    has(&rt, &woven, Lane::First, &[a, b]);
    has(&rt, &woven, Lane::Second, &[a]);
    let Some(value) = woven.get_mut(b) else {
        panic!(rt; "a value is missing");
    };
    *value = 21;
    assert_eq!(rt; woven.get(b).copied(), Some(21));
    assert_eq!(rt; woven.get(a).copied(), Some(10));
    assert_eq!(rt; woven.get(c).copied(), None);
    woven.clear();
    has(&rt, &woven, Lane::First, &[]);
    has(&rt, &woven, Lane::Second, &[]);
    assert_eq!(rt; woven.get(a).copied(), None);
    assert!(rt; woven.spare() >= 3);
    Ok(())
}
