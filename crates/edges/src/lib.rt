// Tests alone: what happens at the edges of the rules.
#![tactic(auto)]

#[cfg(test)]
mod tests;
