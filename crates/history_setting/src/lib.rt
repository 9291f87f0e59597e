//! The setting of a header: what `history` is told of votes, of the words of commands and of refusals.
//!
//! `specs/Settings` defines it by what the layers are proved to meet: the configuration that updates make of the header's, what words are read as under
//! its version, the canonical words of a command, and how a refusal is printed.
//!
//! Each function here is a law. It has no body, and its contract is proved of every header and of all words; the last one of every run.
#![tactic(auto)]

ghost use Rattle.history_setting.specs.Laws.{CanonicalWordsAreRead, CanonicalWordsStay, NoUpdateIsAQuery, RefusalsAreRead, SettingCountsVotes, SettingReadsWords, SettingVotesOfEachRun, WordsHaveErrors};

/// Canonical words are read as the command whose they are: no other command has them.
pub fn canonical_words_are_read()
    ensures { CanonicalWordsAreRead }
{}

/// They have themselves as canonical words.
pub fn canonical_words_stay()
    ensures { CanonicalWordsStay }
{}

/// Words are read as the nodes read them, and by its canonical words a command is an update, a query, or something else that the president is
/// asked for.
pub fn setting_reads_words()
    ensures { SettingReadsWords }
{}

/// No words at all are those of an update and of a query.
pub fn no_update_is_a_query()
    ensures { NoUpdateIsAQuery }
{}

/// Words have one of the three errors exactly where they are no command's.
pub fn words_have_errors()
    ensures { WordsHaveErrors }
{}

/// What is printed of a refusal is read as this refusal, where its operands have the forms of operands.
pub fn refusals_are_read()
    ensures { RefusalsAreRead }
{}

/// The votes after a list of updates are those that the nodes count.
pub fn setting_counts_votes()
    ensures { SettingCountsVotes }
{}

/// So in each run the members of a start and the devices that it holds have more than half of these votes.
pub fn setting_votes_of_each_run()
    ensures { SettingVotesOfEachRun }
{}
