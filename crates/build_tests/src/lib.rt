// Cases built from short tables: what is laid, and each refusal with its row.
#![tactic(auto)]

#[cfg(test)]
mod tests;
