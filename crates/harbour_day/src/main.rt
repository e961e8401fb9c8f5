// Runs a panel by the papers of a file, here those of a day with many calls.
#![tactic(auto)]

use file_print::print_file;

fn main(rt: HostRuntime) -> anyhow::Result<()> {
    print_file(&rt)
}
