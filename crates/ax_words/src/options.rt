//! What the words of the command line ask for.
use thiserror::Error;

/// What the words of the command line ask for, with the defaults of what they don't name.
#[derive(Clone, Copy, Debug, PartialEq, Eq)]
pub struct Options {
    /// `--max-parallelism`: into how many key groups the keys are cut, from 1 to 32768. The default
    /// is 128.
    pub max_parallelism: u16,
    /// `--in-flight`: how many rows and firings may be under way at once, from 1 to 65536. The
    /// default is 6000.
    pub in_flight: u32,
    /// `--batch`: at most how many requests go to a shard together, from 1 to 65536. The default is
    /// 1000.
    pub batch: u32,
    /// `--shards`: how many shards hold the states of the keys, from 1 to 64, and at most
    /// `max_parallelism`. The default is the lesser of 8 and that.
    pub shards: u16,
    /// `--io-threads`: how many threads serve the shards beside the one that runs the program. None
    /// is built yet, so it is 0.
    pub io_threads: u16,
}

/// Why words are not read.
#[derive(Clone, Copy, Debug, PartialEq, Eq, Error)]
pub enum WordFault {
    /// The words are no command line of this program.
    #[error("the words are refused")]
    Usage,
    /// Memory was short.
    #[error("memory was short")]
    NoMemory,
}
