//! Rows: answers worked out by hand from the manual pages, which the definitions of `strm_types` and `strm_laws` have to compute. Each is a lemma of
//! `proofs/`; no other crate stands on this one.
#![tactic(auto)]
