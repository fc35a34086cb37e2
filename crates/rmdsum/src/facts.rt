//! Facts about the definitions: the contracts of functions that do nothing.

ghost use Rattle.rmdsum.specs.Arguments.{NamesAreLengths};
ghost use Rattle.rmdsum.specs.Worked.{WorkedArguments, WorkedStops, WorkedWords, WorkedConflicts, WorkedAnswers, WorkedDeeds, WorkedRuns, WorkedNames};

/// The name of a variant is the length of its digest in bits.
pub fn named_lengths()
    ensures { NamesAreLengths }
{}

/// What arguments say.
#[tactic(auto, unfolding(crate::specs::Options::by_name))]
pub fn worked_arguments()
    ensures said { WorkedArguments }
    ensures stops { WorkedStops }
{}

/// What they ask for together.
pub fn worked_requests()
    ensures words { WorkedWords }
    ensures conflicts { WorkedConflicts }
{}

/// What whole command lines ask for.
#[tactic(auto, unfolding(crate::specs::Options::by_name))]
pub fn worked_answers()
    ensures { WorkedAnswers }
{}

/// What is done for arguments.
pub fn worked_deeds()
    ensures { WorkedDeeds }
{}

/// What a run does with names.
pub fn worked_runs()
    ensures { WorkedRuns }
{}

/// Which names a file has.
pub fn worked_names()
    ensures { WorkedNames }
{}
