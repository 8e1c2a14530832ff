// One comparison, on one line.
use std::io::Write;

pub fn tell_number(rt: &HostRuntime, what: &str, expected: u64, came: u64) -> anyhow::Result<()> {
    println!(rt; "{what}: expected {expected}, came {came}")?;
    Ok(())
}

// Each printed line beside the one that was expected.
pub fn tell_lines(
    rt: &HostRuntime,
    what: &str,
    expected: &[u8],
    came: &[u8],
) -> anyhow::Result<()> {
    println!(rt; "{what}: expected")?;
    rt.stdout().write_all(expected)?;
    println!(rt; "{what}: came")?;
    rt.stdout().write_all(came)?;
    Ok(())
}
