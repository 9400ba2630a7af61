//! Laws of the definitions: facts of every script. Each is the contract of a function that does
//! nothing, so that it is proved, and can be cited.

ghost use Rattle.depot_cli.specs.Acceptance.{HasAcceptedReadings};
ghost use Rattle.depot_cli.specs.SerialJournal.{HasLegalSerial, HasSerialJournals};
ghost use Rattle.depot_cli.specs.Runs.{HasCompleteRuns};

/// A law: what `reclaim` drops does not change the journal. So the laws of `serial` speak of each
/// run.
pub fn journals_are_serial()
    ensures law { HasSerialJournals }
{}

/// A law: the journal that the items of a script make is legal.
pub fn serial_is_legal()
    ensures law { HasLegalSerial }
{}

/// A law: the run of a command over a source that does not fail, into a sink that has room for the
/// replies or does not fail, has the status of its reading, exactly its replies, and leaves what it
/// leaves; or there was no memory.
pub fn runs_are_complete()
    ensures law { HasCompleteRuns }
{}

/// A law: if the reading of an input serves, its description is served, and the journal of its
/// items fits that. So the laws of descriptions and of legal journals speak of its run.
pub fn readings_are_accepted()
    ensures law { HasAcceptedReadings }
{}
