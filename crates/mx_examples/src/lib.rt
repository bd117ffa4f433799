//! Worked examples that take tens of seconds to compute, of definitions of mx_words, mx_model and mx_audit. They stand
//! here, by themselves, so that no crate has to wait for them. The others stand beside what they show.
#![tactic(auto)]
