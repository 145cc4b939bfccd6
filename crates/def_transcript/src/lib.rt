//! Definitions alone, without code: the text of each reply, and the transcript of a script under a journal.
#![tactic(auto)]
