// Verdicts: what was answered, against what is due.

// One line a case. What was answered is shown only where it is not what is due.
pub fn judge(
    rt: &HostRuntime,
    label: &'static str,
    got: &str,
    due: &'static str,
) -> anyhow::Result<()> {
    if got == due {
        println!(rt; "ok: {label}")?;
    } else {
        println!(rt; "WRONG: {label}: got {got}, due {due}")?;
    }
    Ok(())
}
