//! The audit: which domains a run can come to, and which words it never changes.
#![tactic(auto)]

mod alike;
mod audited;
mod auditing;
mod laws;
mod lines;
mod living;
mod sealing;

pub use audited::Audit;
pub use auditing::audit;
pub use laws::{
    audit_of_a_flat_state, audits_of_boots_stay, live_by_rounds, live_never_grows,
    runs_of_sealed_words, sealed_by_rounds, sealed_words_stay,
};
pub use lines::write_audit;
