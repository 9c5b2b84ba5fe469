//! What the definitions of the law say of worked histories and of random ones, wrong ones among them: theorems by
//! computation, in `proofs/`. They check in seconds, where tests would take minutes. No crate stands on this one.
#![tactic(auto)]
