//! Runs of the task by itself, with a list of numbers by which the batch that comes back next is chosen.
ghost use Rattle.std.specs.Prelude.{◌<◌};
ghost use Rattle.ax_core.specs.Sound.{InRange};

use crate::by_key::by_key;
use ax_base::{Bytes, Nums, SureSink, SureSource};
use ax_task::{Config, End, Settings, run_task_alone};
use std::alloc::{AllocGlobal, Global};
use std::process::Abort;
use std::test::Fail;

fn number(word: Option<&str>) -> u32 {
    word.unwrap_or("0").parse::<u32>().unwrap_or(0)
}

fn small(word: Option<&str>) -> u16 {
    u16::try_from(number(word)).unwrap_or(0)
}

/// How a run works, by the first four numbers of a way: how many rows may be in flight, how many requests a batch has at most, how
/// many shards and how many groups of keys there are.
pub fn config_of(rt: &impl Abort, way: &str) -> Config
    ensures ranges { InRange result.settings }
    ensures contexts { 0 < result.settings.in_flight }
    ensures batch { 0 < result.batch }
{
    let mut words = way.split(' ');
    let in_flight = number(words.next());
    let batch = number(words.next());
    let shards = small(words.next());
    let groups = small(words.next());
    assert!(rt; in_flight > 0);
    assert!(rt; in_flight <= 65536);
    assert!(rt; batch > 0);
    assert!(rt; shards > 0);
    assert!(rt; shards <= groups);
    assert!(rt; groups <= 32768);
    let settings = Settings {
        serial: true,
        shards,
        groups,
        in_flight,
    };
    Config { settings, batch }
}

/// The list of numbers: those of a way behind the first four.
pub fn order_of(alloc: Global, way: &str) -> Result<Nums, Fail> {
    let mut order = Nums::new(alloc);
    let mut words = way.split(' ');
    words.nth(3);
    for word in words {
        order.push(i64::from(number(Some(word))))?;
    }
    Ok(order)
}

/// What an input writes in a way.
pub fn bytes_by(rt: &(impl Abort + AllocGlobal), way: &str, input: &[u8]) -> Result<Bytes, Fail> {
    let alloc = rt.alloc();
    let config = config_of(rt, way);
    let order = order_of(alloc, way)?;
    let mut source = SureSource::new(Bytes::from_slice(alloc, input)?);
    let mut sink = SureSink::new(alloc);
    let end = run_task_alone(alloc, &config, order, &mut source, &mut sink);
    assert_eq!(rt; end, End::Ok, "{way}");
    Ok(Bytes::from_slice(alloc, sink.bytes())?)
}

/// The same, sorted by key between two markers.
pub fn written_by(
    rt: &(impl Abort + AllocGlobal),
    way: &str,
    input: &[u8],
) -> Result<String, Fail> {
    let bytes = bytes_by(rt, way, input)?;
    Ok(by_key(rt.alloc(), bytes.as_slice())?)
}
