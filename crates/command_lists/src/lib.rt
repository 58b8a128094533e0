//! What a front end does to a session: a list of the debugger's commands, one after another.
#![tactic(auto)]
