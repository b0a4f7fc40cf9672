// An end of a line as it runs.
#![tactic(auto)]

#[cfg(test)]
mod tests;
