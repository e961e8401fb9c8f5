// Sheets and the bytes that they are written as.
#![tactic(auto)]

#[cfg(test)]
mod sheets;
