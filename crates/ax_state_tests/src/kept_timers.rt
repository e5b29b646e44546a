//! Timers of few keys, beside a plain list.
use ax_base::NoMemory;
use ax_keys::Key;
use ax_time::Timers;
use std::alloc::Global;
use std::test::Fail;

// A line has a step, all timers after it, and the keys with one that is due at 4. A step sets a timer by `+`, takes one off
// by `-`, or takes the least of a key by `!`, which has the time that is named.
const STEPS: &str = "\
+a5,a5,
+a5,a5,
+b3,a5b3,b
+a5,a5b3,b
+c3,a5b3c3,bc
+a1,a1a5b3c3,abc
-b9,a1a5b3c3,abc
+b0,a1a5b0b3c3,abc
!a1,a5b0b3c3,bc
-c3,a5b0b3,b
+c4,a5b0b3c4,bc
!b0,a5b3c4,bc
!b3,a5c4,c
+a4,a4a5c4,ac
-a4,a5c4,c
!a5,c4,c
!c4,,";

#[test]
fn follows_a_plain_list(rt: HostRuntime) -> Result<(), Fail> {
    let mut timers = Timers::new(rt.alloc());
    for line in STEPS.lines() {
        assert!(&rt; follows(rt.alloc(), &mut timers, line)?);
    }
    Ok(())
}

fn follows(alloc: Global, timers: &mut Timers, line: &str) -> Result<bool, NoMemory> {
    let mut parts = line.split(',');
    let (Some(step), Some(all), Some(keys)) = (parts.next(), parts.next(), parts.next()) else {
        return Ok(false);
    };
    if !takes(alloc, timers, step.as_bytes())? {
        return Ok(false);
    }
    Ok(all_are(alloc, timers, all.as_bytes())? && keys_are(alloc, timers, keys.as_bytes())?)
}

// Takes a step.
fn takes(alloc: Global, timers: &mut Timers, step: &[u8]) -> Result<bool, NoMemory> {
    let [mark, name, digit] = step else {
        return Ok(false);
    };
    let Some(key) = Key::read(alloc, &[*name])? else {
        return Ok(false);
    };
    let time = i64::from(*digit) - 48;
    match *mark {
        b'+' => timers.set(&key, time)?,
        b'-' => timers.unset(&key, time),
        _ => return Ok(timers.take_least(&key) == Some(time)),
    }
    Ok(true)
}

// Whether a key and a time are those of two bytes.
fn is_place(key: &Key, time: i64, place: &[u8]) -> bool {
    match place {
        [name, digit] => key.as_bytes() == [*name].as_slice() && time == i64::from(*digit) - 48,
        _ => false,
    }
}

fn all_are(alloc: Global, timers: &Timers, places: &[u8]) -> Result<bool, NoMemory> {
    let all = timers.all(alloc)?;
    let mut same = all.len() == places.len() / 2;
    for (timer, place) in all.as_slice().iter().zip(places.chunks(2)) {
        same = same && is_place(&timer.key, timer.time, place);
    }
    Ok(same)
}

fn keys_are(alloc: Global, timers: &Timers, names: &[u8]) -> Result<bool, NoMemory> {
    let keys = timers.due_keys(alloc, 4)?;
    let mut same = keys.len() == names.len();
    for (key, name) in keys.as_slice().iter().zip(names.iter()) {
        same = same && key.as_bytes() == [*name].as_slice();
    }
    Ok(same)
}
