//! The one-lock machine, tried by scripts. It has tests alone, so the crate that it tries is proved once and waits for
//! no test.
#![tactic(auto)]

#[cfg(test)]
mod machine_rows;
