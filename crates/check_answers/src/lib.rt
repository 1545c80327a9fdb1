//! The worked examples of the engine.
#![tactic(auto)]

#[cfg(test)]
mod examples;
