// Compares worked figures with what the code gives, and prints each with what was expected and what came.
#![tactic(auto)]

mod fingerprints;
mod opening;
mod papers;
mod samples;
mod tell;

fn main(rt: HostRuntime) -> anyhow::Result<()> {
    opening::tell_all(&rt)?;
    fingerprints::tell_all(&rt)?;
    papers::tell_all(&rt)
}
