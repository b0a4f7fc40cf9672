// Lines of a script that are run.
#![tactic(auto)]

#[cfg(test)]
mod tests;
