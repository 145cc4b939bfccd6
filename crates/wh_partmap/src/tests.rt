ghost use Rattle.std.specs.Prelude.{◌≡◌, ◌≤◌, IfOk, IfSome};
ghost use Rattle.wh_partmap.specs.History.{last_touched};

use crate::{PartFault, PartMap};
use std::alloc::{AllocError, Global};
use std::test::Fail;
use wh_base::seq::Seq;
use wh_base::tables::{Part, Touch};
use wh_base::txt::Txt;
use wh_base::values::{Interval, Value};

// Adds a partition with the name `P` and its bound, of which 0 is none. The answer is its place, or 9 where its bound isn't
// above the last one.
fn add(alloc: Global, map: &mut PartMap, below: i128, scn: u64) -> Result<u64, AllocError>
    requires { map.old.since ≤ scn }
    ensures since { map.new.since ≤ scn }
    ensures born { map.new.born ≡ map.old.born }
    ensures touches { map.new.touches ≡ map.old.touches }
{
    let name = Txt::from_slice(alloc, format!(in alloc; "P{below}")?.as_bytes())?;
    match map.add(name, bound(below), scn) {
        Ok(place) => Ok(u64::from(place)),
        Err(PartFault::Bound) => Ok(9),
        Err(_) => Err(AllocError),
    }
}

// Drops a partition, and tells of its touch then. The answer is 1, and 0 where it was the only one.
fn drop_at(map: &mut PartMap, place: u32, scn: u64) -> Result<u64, AllocError>
    requires since { map.old.since ≤ scn }
    requires touches { last_touched map.old.touches ≤ scn }
    ensures since { map.new.since ≤ scn }
    ensures born { map.new.born ≡ map.old.born }
    ensures touches { last_touched map.new.touches ≤ scn }
{
    map.reserve(1)?;
    if place as usize >= map.parts().len() {
        return Ok(9);
    }
    let touch = map.made(place, scn)?;
    match map.drop_at(place, scn) {
        Ok(()) => {
            map.touch(touch);
            Ok(1)
        }
        Err(PartFault::Last) => Ok(0),
        Err(_) => Err(AllocError),
    }
}

// Touches a partition. The answer is its number.
fn touch(map: &mut PartMap, place: u32, scn: u64) -> Result<u64, AllocError>
    requires { last_touched map.old.touches ≤ scn }
    ensures since { map.new.since ≡ map.old.since }
    ensures born { map.new.born ≡ map.old.born }
    ensures touches { last_touched map.new.touches ≤ scn }
{
    map.reserve(1)?;
    if place as usize >= map.parts().len() {
        return Ok(0);
    }
    let touch = map.made(place, scn)?;
    let number = touch.number;
    map.touch(touch);
    Ok(number)
}

// One call: `+` adds a partition with this bound, `-` drops the one at this place, and all else touches it.
fn call(
    alloc: Global,
    map: &mut PartMap,
    what: u8,
    number: u32,
    scn: u64,
) -> Result<u64, AllocError>
    requires since { map.old.since ≤ scn }
    requires touches { last_touched map.old.touches ≤ scn }
    ensures since { map.new.since ≤ scn }
    ensures born { map.new.born ≡ map.old.born }
    ensures touches { last_touched map.new.touches ≤ scn }
{
    match what {
        b'+' => add(alloc, map, i128::from(number), scn),
        b'-' => drop_at(map, number, scn),
        _ => touch(map, number, scn),
    }
}

// The map of a table born at 3 after these calls, each with its number, its SCN and the answer wanted; `None` where an
// answer is another.
fn filled(alloc: Global, calls: &[(u8, u32, u64, u64)]) -> Result<Option<PartMap>, AllocError>
    ensures { IfOk result (λ filled. IfSome filled (λ map. map.born ≡ 3)) }
{
    let mut map = PartMap::new(alloc, 3);
    let mut last = 3;
    for one in calls {
        let (what, number, scn, wanted) = *one;
        if scn < last || call(alloc, &mut map, what, number, scn)? != wanted {
            return Ok(None);
        }
        last = scn;
    }
    Ok(Some(map))
}

// The names, numbers and bounds of the partitions, as `P10.1<10 P0.3<0`, where 0 is no bound.
fn are(alloc: Global, parts: &Seq<Part>, wanted: &str) -> Result<bool, AllocError> {
    let mut text = String::new(alloc);
    for part in parts.as_slice() {
        if !text.is_empty() {
            text.push_str(" ")?;
        }
        for byte in part.name.as_slice() {
            text.push(*byte as char)?;
        }
        let number = part.number;
        let below = shown(&part.below);
        text.push_str(format!(in alloc; ".{number}<{below}")?.as_str())?;
    }
    Ok(text.as_str() == wanted)
}

// The numbers and intervals of the touches, as `2:10-20 3:20-0`, where 0 is no bound.
fn are_touches(alloc: Global, touches: &[Touch], wanted: &str) -> Result<bool, AllocError> {
    let mut text = String::new(alloc);
    for touch in touches {
        if !text.is_empty() {
            text.push_str(" ")?;
        }
        let number = touch.number;
        let lo = shown(&touch.interval.lo);
        let hi = shown(&touch.interval.hi);
        text.push_str(format!(in alloc; "{number}:{lo}-{hi}")?.as_str())?;
    }
    Ok(text.as_str() == wanted)
}

fn shown(bound: &Option<Value>) -> i128 {
    match bound {
        Some(Value::Num(n)) => *n,
        _ => 0,
    }
}

fn bound(value: i128) -> Option<Value> {
    if value == 0 {
        None
    } else {
        Some(Value::Num(value))
    }
}

#[test]
fn partitions_and_touches(rt: HostRuntime) -> Result<(), Fail> {
    let alloc = rt.alloc();
    let calls = [
        (b'+', 10, 3, 0),
        (b'+', 20, 3, 1),
        (b'+', 20, 4, 9),
        (b'*', 1, 4, 2),
        (b'+', 0, 5, 2),
        (b'+', 30, 5, 9),
        (b'*', 2, 6, 3),
        (b'-', 1, 8, 1),
        (b'*', 1, 9, 3),
        (b'-', 0, 10, 1),
        (b'-', 0, 11, 0),
    ];
    let Some(map) = filled(alloc, &calls)? else {
        assert!(rt; false, "an answer");
        return Ok(());
    };
    for (scn, wanted) in [
        (3, "P10.1<10 P20.2<20"),
        (4, "P10.1<10 P20.2<20"),
        (5, "P10.1<10 P20.2<20 P0.3<0"),
        (7, "P10.1<10 P20.2<20 P0.3<0"),
        (8, "P10.1<10 P0.3<0"),
        (9, "P10.1<10 P0.3<0"),
        (10, "P0.3<0"),
        (99, "P0.3<0"),
    ] {
        if scn >= 3 {
            assert!(rt; are(alloc, map.as_of(scn), wanted)?, "at {scn}");
        }
    }
    assert!(rt; are(alloc, map.parts(), "P0.3<0")?);
    Ok(())
}

#[test]
fn touches(rt: HostRuntime) -> Result<(), Fail> {
    let alloc = rt.alloc();
    let calls = [
        (b'+', 10, 3, 0),
        (b'+', 20, 3, 1),
        (b'+', 0, 3, 2),
        (b'*', 1, 4, 2),
        (b'*', 2, 6, 3),
        (b'-', 1, 8, 1),
        (b'*', 1, 9, 3),
        (b'-', 0, 10, 1),
    ];
    let Some(map) = filled(alloc, &calls)? else {
        assert!(rt; false, "an answer");
        return Ok(());
    };
    for (scn, wanted) in [
        (3, "2:10-20 3:20-0 2:10-20 3:10-0 1:0-10"),
        (4, "3:20-0 2:10-20 3:10-0 1:0-10"),
        (5, "3:20-0 2:10-20 3:10-0 1:0-10"),
        (8, "3:10-0 1:0-10"),
        (9, "1:0-10"),
        (10, ""),
    ] {
        assert!(rt;
            are_touches(alloc, map.touches_after(scn), wanted)?,
            "at {scn}"
        );
    }
    assert_eq!(rt; map.touches().len(), 5);
    for (scn, lo, hi, wanted) in [
        (3, 0, 5, true),
        (10, 0, 5, false),
        (9, 0, 5, true),
        (9, 10, 0, false),
        (8, 10, 11, true),
        (6, 5, 10, true),
        (8, 20, 21, true),
    ] {
        let interval = Interval {
            lo: bound(lo),
            hi: bound(hi),
        };
        assert_eq!(rt; map.touched_since(scn, &interval), wanted, "at {scn} {lo}");
    }
    Ok(())
}

#[test]
fn places_of_keys(rt: HostRuntime) -> Result<(), Fail> {
    let alloc = rt.alloc();
    let calls = [(b'+', 10, 3, 0), (b'+', 20, 4, 1), (b'+', 30, 4, 2)];
    let Some(map) = filled(alloc, &calls)? else {
        assert!(rt; false, "an answer");
        return Ok(());
    };
    for (key, place) in [(-5, 0), (9, 0), (10, 1), (19, 1), (20, 2), (29, 2), (30, 9)] {
        assert_eq!(rt; map.find(&Value::Num(key)).unwrap_or(9), place, "at {key}");
    }
    assert_eq!(rt; map.find(&Value::Null), None);
    assert_eq!(rt; PartMap::new(alloc, 3).find(&Value::Num(5)), None);
    Ok(())
}
