//! Worked pages whose tokens are recorded with their places, with bytes written by hand.
#![tactic(auto)]

#[cfg(test)]
mod sessions;
