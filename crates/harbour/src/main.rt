// Runs a panel by the papers of a file, here those of the small harbour.
#![tactic(auto)]

use file_print::print_file;

fn main(rt: HostRuntime) -> anyhow::Result<()> {
    print_file(&rt)
}
