// Runs a panel by the papers of a file, here papers that are refused in every way that is left after the case.
#![tactic(auto)]

use file_print::print_file;

fn main(rt: HostRuntime) -> anyhow::Result<()> {
    print_file(&rt)
}
