//! Tests of `serve` over sockets of the loopback, with its peers on the same thread: what no clause says, which is that the decisions are carried out.
#![tactic(auto)]

mod cases;
mod stage;
