//! The worked rows, table by table. Written by `tools/transcripts/write_tests.py`.
pub(crate) mod assertions;
pub(crate) mod control;
pub(crate) mod debugger;
pub(crate) mod divisions;
pub(crate) mod forms;
pub(crate) mod indices;
pub(crate) mod input_ends;
pub(crate) mod inputs;
pub(crate) mod lane_indices;
pub(crate) mod library;
pub(crate) mod order;
pub(crate) mod refusals;
pub(crate) mod runs;
pub(crate) mod statements;
