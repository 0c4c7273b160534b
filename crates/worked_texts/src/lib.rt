//! Worked cases of texts as theorems: texts that are no script, with the line and the reason of each refusal, and
//! totals of a report. It has no code, and nothing stands on it. worked_theorems has those of the definitions alone,
//! which need no crate with code that reads or writes a text.
#![tactic(auto)]
