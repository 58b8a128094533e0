//! Worked rows of the masked run, computed from the definitions of `mask_states`: no running code, the rows stand in `proofs/`.
#![tactic(auto)]
