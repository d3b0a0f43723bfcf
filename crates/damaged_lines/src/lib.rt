// Tests alone: the wrong columns of damaged lines.
#![tactic(auto)]

#[cfg(test)]
mod tests;
