//! How a campaign is worked off.
ghost use Rattle.std.specs.Prelude.{◌≡◌, Some, None, MatchResult};
ghost use Rattle.requests.specs.Options.{bad_option};

/// How a campaign is worked off (profile). Its report doesn't depend on it. A number that is out of its range, as `Options::new`
/// never gives one, is taken for the nearest in it.
#[derive(Clone, Copy, PartialEq, Eq)]
pub struct Options {
    /// How many threads work on it, 1 to 64.
    pub workers: u32,
    /// How many steps lie between two states of the base run that are kept, 1 to 65,536. If rows or
    /// events are left out, fewer may be kept.
    pub stride: u32,
    /// How many points a worker takes at once at most, 1 to 1,000,000.
    pub block: u32,
}

/// Which number is out of its range.
#[derive(Clone, Copy)]
pub enum BadOption {
    /// The workers are not 1 to 64.
    Workers,
    /// The stride is not 1 to 65,536.
    Stride,
    /// The length of a block is not 1 to 1,000,000.
    Block,
}

impl Default for Options {
    /// One worker, a state kept every 64 steps, blocks of 512 points.
    fn default() -> Options
        ensures { result ≡ record { workers = 1; stride = 64; block = 512 } }
    {
        Options {
            workers: 1,
            stride: 64,
            block: 512,
        }
    }
}

impl Options {
    /// The most workers.
    pub const MOST_WORKERS: u32 = 64;
    /// The longest stride.
    pub const MOST_STRIDE: u32 = 65_536;
    /// The longest block.
    pub const MOST_BLOCK: u32 = 1_000_000;

    /// The options of these numbers; the first of them that is out of its range is the error.
    pub fn new(workers: u32, stride: u32, block: u32) -> Result<Options, BadOption>
        ensures { MatchResult result
            (λ options. (bad_option workers stride block ≡ None)
            × (options ≡ record { workers = workers; stride = stride; block = block }))
            (λ fault. bad_option workers stride block ≡ Some fault) }
    {
        if !(1..=Self::MOST_WORKERS).contains(&workers) {
            return Err(BadOption::Workers);
        }
        if !(1..=Self::MOST_STRIDE).contains(&stride) {
            return Err(BadOption::Stride);
        }
        if !(1..=Self::MOST_BLOCK).contains(&block) {
            return Err(BadOption::Block);
        }
        Ok(Options {
            workers,
            stride,
            block,
        })
    }
}
