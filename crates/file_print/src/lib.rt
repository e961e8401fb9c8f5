// Prints what a panel answers to the papers of a file.
#![tactic(auto)]

mod reading;
pub mod stream;
mod writing;

use crate::stream::run_stream;
use anyhow::Context;
use std::rt::{Env, Files};
use std::{env, fs, io};

// Prints all that is answered to the papers of the file that the first argument names.
pub fn print_file<R: Env + Files + Print + AllocGlobal>(rt: &R) -> anyhow::Result<()> {
    let path = env::args(rt)
        .context("the arguments can't be read")?
        .nth(1)
        .context("a file of papers is to be named")?;
    let mut file = fs::open(rt, path.as_str()).context("the file of papers can't be opened")?;
    run_stream(rt.alloc(), &mut file, &mut io::writer(rt))?;
    Ok(())
}
