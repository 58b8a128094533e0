//! Programs whose transcripts are computed from the definitions of `gang_model`: no running code, the rows stand in `proofs/`.
#![tactic(auto)]
