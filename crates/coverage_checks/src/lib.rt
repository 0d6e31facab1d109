//! Tests of tables and goals over whole programs. Nothing else stands here.
#![tactic(auto)]

#[cfg(test)]
mod tests;
