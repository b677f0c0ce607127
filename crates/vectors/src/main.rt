//! Runs the published vectors of both ciphers and edge cases of the memories, and fails where one differs.
#![tactic(auto)]

mod memories;
mod one_way_functions;
mod report;

use report::Report;

fn main(rt: HostRuntime) -> anyhow::Result<()> {
    let mut report = Report::new(&rt);
    one_way_functions::run(&mut report)?;
    memories::run(&mut report, rt.alloc())?;
    report.close()
}
