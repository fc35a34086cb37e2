//! Worked cases of the definitions, as contracts of functions that do nothing.

ghost use Rattle.std.specs.Prelude.{◌≡◌};
ghost use Rattle.ripemd_sum.specs.Types.{Error};
ghost use Rattle.ripemd_sum.specs.Runs.{most_bytes, most_bytes_under_a_key};
ghost use Rattle.ripemd_sum.specs.Worked.{LinesOfAbc, LineOfATag, LinesOfErrors, AskForDigests, AskForTags, AskForNothing, LengthsOfKeys, RunsToTheEnd, Writings, WorkedErrors};

/// The lines of published digests of each variant, of a published tag, and of the errors.
pub fn worked_lines()
    ensures digests { LinesOfAbc }
    ensures tag { LineOfATag }
    ensures errors { LinesOfErrors }
{}

/// Arguments that ask for a digest or a tag, and some near them that ask for nothing.
#[tactic(auto, unfolding(hex::specs::Hex::decode_pairs))]
pub fn worked_arguments()
    ensures digests { AskForDigests }
    ensures tags { AskForTags }
    ensures nothing { AskForNothing }
{}

/// The greatest length of keys, and the next ones; the greatest lengths of the input.
pub fn worked_limits()
    ensures keys { LengthsOfKeys }
    ensures input { most_bytes ≡ 2305843009213693951 }
    ensures input_under_a_key { most_bytes_under_a_key ≡ 2305843009213693887 }
{}

/// What a run says of its reader and writer: true runs, and others that lack one part.
pub fn worked_runs()
    ensures ends { RunsToTheEnd }
    ensures writes { Writings }
    ensures errors { (error : Error) → WorkedErrors error }
{}
