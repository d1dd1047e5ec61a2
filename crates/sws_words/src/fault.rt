// Why words give no task.
ghost use Rattle.std.specs.Prelude.{◌≡◌};

/// What is wrong with the words. Of several faults the one that stands first here is answered.
#[derive(Clone, Copy, Debug, PartialEq, Eq)]
pub enum UsageFault {
    /// The words are not options with one value each: an unknown option, a repeated one, a missing
    /// value or a stray word.
    Words,
    /// The value of `--task` is no task.
    Task,
    /// A required option is not given.
    Missing,
    /// An option is given that the task does not have, or that the header of a YUV4MPEG2 source
    /// stands for.
    Unwanted,
    /// A value other than the name of a format is not in its set.
    Value,
    /// Width or height is not 1 to 16,384, or their product is above 33,554,432.
    Size,
    /// The range of yuvj444p is to be limited.
    FixedRange,
    /// The range of an RGB format, or of pal8, is to be limited.
    RgbRange,
    /// The output is to be a YUV4MPEG2 stream, which has no form for its format.
    NotStreamFormat,
}

/// Why words were not read.
#[derive(Clone, Copy, Debug, PartialEq, Eq)]
pub enum WordsEnd {
    /// The words break a rule.
    Usage(UsageFault),
    /// No memory was to be had.
    OutOfMemory,
}

impl From<UsageFault> for WordsEnd {
    ghost use Rattle.sws_words.specs.declared.fault.WordsEnd.TheVariants.{Usage};

    ghost from_gives = { λ fault end. end ≡ Usage fault };

    fn from(fault: UsageFault) -> WordsEnd {
        WordsEnd::Usage(fault)
    }
}
