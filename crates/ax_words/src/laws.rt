//! Laws of the reading of words, each the contract of an empty function: of this program's options, and of a
//! small table with a flag (`quiet`), one of two words (`pace`, `slow` by default), and a number from 1 to 100
//! that is off by default (`rows`).
ghost use Rattle.std.specs.Prelude.{◌≡◌, [], ◌∷◌, List, true, false, IfSome, Some, None, codes};
ghost use Rattle.std.specs.List.{All};
ghost use Rattle.ax_words.specs.Words.{Text, is_fine};
ghost use Rattle.ax_words.specs.Options.{AreInRange, options, options_of};
ghost use Rattle.ax_words.specs.Sample.{sample_of};

/// The default of each option, where it has one, is a value that it takes.
pub fn default_law()
    ensures { All (λ r. is_fine r.takes r.default ≡ true) options }
{}

/// With no words there are 128 key groups over 8 shards, at most 6,000 rows and firings under way, batches of at most 1,000
/// requests, and no further threads.
pub fn no_words_law()
    ensures { options_of [] ≡ Some (record { max_parallelism = 128; in_flight = 6000; batch = 1000; shards = 8; io_threads = 0 }) }
{}

/// Where words are accepted, each option is in its range.
pub fn options_in_range_law()
    ensures { (words : List Text) → IfSome (options_of words) AreInRange }
{}

/// Each option has the value that it is given, in any order and by either spelling.
pub fn options_of_words_law()
    ensures all { options_of (codes "--batch=5" ∷ codes "--shards" ∷ codes "3" ∷ codes "--in-flight" ∷ codes "1" ∷ codes "--io-threads=0" ∷ codes "--max-parallelism" ∷ codes "4" ∷ [])
        ≡ Some (record { max_parallelism = 4; in_flight = 1; batch = 5; shards = 3; io_threads = 0 }) }
    ensures greatest { options_of (codes "--max-parallelism=32768" ∷ codes "--in-flight=65536" ∷ codes "--batch=65536" ∷ codes "--shards=64" ∷ [])
        ≡ Some (record { max_parallelism = 32768; in_flight = 65536; batch = 65536; shards = 64; io_threads = 0 }) }
    ensures batch_zero { options_of (codes "--batch" ∷ codes "0" ∷ []) ≡ None }
    ensures batch_above { options_of (codes "--batch=65537" ∷ []) ≡ None }
    ensures batch_twice { options_of (codes "--batch" ∷ codes "5" ∷ codes "--batch" ∷ codes "5" ∷ []) ≡ None }
    ensures in_flight_zero { options_of (codes "--in-flight=0" ∷ []) ≡ None }
    ensures in_flight_above { options_of (codes "--in-flight" ∷ codes "65537" ∷ []) ≡ None }
    ensures threads { options_of (codes "--io-threads" ∷ codes "1" ∷ []) ≡ None }
{}

/// There are 8 shards, or one for each key group where there are fewer; a number that is given is from 1 to 64, and at most that of
/// the key groups.
pub fn shards_law()
    ensures fewer { options_of (codes "--max-parallelism" ∷ codes "4" ∷ []) ≡ Some (record { max_parallelism = 4; in_flight = 6000; batch = 1000; shards = 4; io_threads = 0 }) }
    ensures one_each { options_of (codes "--shards=4" ∷ codes "--max-parallelism=4" ∷ []) ≡ Some (record { max_parallelism = 4; in_flight = 6000; batch = 1000; shards = 4; io_threads = 0 }) }
    ensures above_groups { options_of (codes "--shards" ∷ codes "8" ∷ codes "--max-parallelism" ∷ codes "4" ∷ []) ≡ None }
    ensures zero { options_of (codes "--shards=0" ∷ []) ≡ None }
    ensures above { options_of (codes "--shards" ∷ codes "65" ∷ []) ≡ None }
{}

/// What an option has that isn't given: a flag is off, a word its default, and a number without default is off.
pub fn options_left_out_law()
    ensures nothing { sample_of [] ≡ Some (false, (Some (codes "slow"), None)) }
    ensures hyphens { sample_of (codes "--" ∷ []) ≡ Some (false, (Some (codes "slow"), None)) }
{}

/// What an option has that is given, by either spelling and in any order.
pub fn options_given_law()
    ensures flag { sample_of (codes "--quiet" ∷ []) ≡ Some (true, (Some (codes "slow"), None)) }
    ensures word { sample_of (codes "--pace" ∷ codes "fast" ∷ []) ≡ Some (false, (Some (codes "fast"), None)) }
    ensures word_default { sample_of (codes "--pace=slow" ∷ []) ≡ Some (false, (Some (codes "slow"), None)) }
    ensures number { sample_of (codes "--rows" ∷ codes "007" ∷ []) ≡ Some (false, (Some (codes "slow"), Some 7)) }
    ensures greatest { sample_of (codes "--rows=100" ∷ []) ≡ Some (false, (Some (codes "slow"), Some 100)) }
    ensures all { sample_of (codes "--rows=5" ∷ codes "--quiet" ∷ codes "--pace" ∷ codes "fast" ∷ codes "--" ∷ []) ≡ Some (true, (Some (codes "fast"), Some 5)) }
{}

/// An option stands at most once, with a value exactly where it takes one, and its name in full.
pub fn spelling_law()
    ensures flag_twice { sample_of (codes "--quiet" ∷ codes "--quiet" ∷ []) ≡ None }
    ensures word_twice { sample_of (codes "--pace=fast" ∷ codes "--pace" ∷ codes "fast" ∷ []) ≡ None }
    ensures flag_with_value { sample_of (codes "--quiet=true" ∷ []) ≡ None }
    ensures flag_before_word { sample_of (codes "--quiet" ∷ codes "true" ∷ []) ≡ None }
    ensures no_value { sample_of (codes "--pace" ∷ []) ≡ None }
    ensures abbreviated { sample_of (codes "--row" ∷ codes "5" ∷ []) ≡ None }
    ensures longer { sample_of (codes "--rowss" ∷ codes "5" ∷ []) ≡ None }
    ensures unknown { sample_of (codes "--help" ∷ []) ≡ None }
    ensures short { sample_of (codes "-q" ∷ []) ≡ None }
    ensures other_word { sample_of (codes "quiet" ∷ []) ≡ None }
    ensures not_last { sample_of (codes "--" ∷ codes "--quiet" ∷ []) ≡ None }
    ensures hyphens_twice { sample_of (codes "--" ∷ codes "--" ∷ []) ≡ None }
{}

/// A value is one that the option takes, and begins with no hyphen.
pub fn value_law()
    ensures word { sample_of (codes "--pace=quick" ∷ []) ≡ None }
    ensures word_abbreviated { sample_of (codes "--pace" ∷ codes "f" ∷ []) ≡ None }
    ensures word_empty { sample_of (codes "--pace=" ∷ []) ≡ None }
    ensures zero { sample_of (codes "--rows" ∷ codes "0" ∷ []) ≡ None }
    ensures above { sample_of (codes "--rows=101" ∷ []) ≡ None }
    ensures hyphen { sample_of (codes "--rows" ∷ codes "-5" ∷ []) ≡ None }
    ensures hyphen_behind { sample_of (codes "--rows=-5" ∷ []) ≡ None }
    ensures hyphen_alone { sample_of (codes "--rows" ∷ codes "-" ∷ []) ≡ None }
    ensures hyphen_zero { sample_of (codes "--rows=-0" ∷ []) ≡ None }
    ensures plus { sample_of (codes "--rows=+5" ∷ []) ≡ None }
    ensures option_as_value { sample_of (codes "--pace" ∷ codes "--quiet" ∷ []) ≡ None }
    ensures hyphens_as_value { sample_of (codes "--pace" ∷ codes "--" ∷ []) ≡ None }
{}
