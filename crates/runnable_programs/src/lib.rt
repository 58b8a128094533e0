//! Why the program of an accepted source is one that a machine runs: definitions, in `specs/`, and proofs, in `proofs/`; no running code.
#![tactic(auto)]
