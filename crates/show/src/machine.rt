//! The machine of a job in words.
use answer::decode::mailbox_of;
use job::Job;
use systems::actions::ActionSet;
use systems::mailbox::Mailbox;

/// Prints the actions of a set in a line.
fn print_set(rt: &HostRuntime, heading: &str, set: &ActionSet) -> anyhow::Result<()> {
    print!(rt; "{heading}")?;
    for action in 1..=255u8 {
        if set.contains(action) {
            print!(rt; " {action}")?;
        }
    }
    println!(rt; "")?;
    Ok(())
}

/// Prints a mailbox.
fn print_mailbox(rt: &HostRuntime, mailbox: &Mailbox) -> anyhow::Result<()> {
    let capacity = mailbox.capacity;
    let put = mailbox.put;
    let take = mailbox.take;
    println!(rt;
        "  a mailbox of capacity {capacity}, put by action {put}, taken from by action {take}"
    )?;
    Ok(())
}

/// Prints the parts of the machine, and its size as the report has it.
pub fn print_machine(rt: &HostRuntime, job: &Job<'_>, report: &[u8]) -> anyhow::Result<()> {
    let states = job.states;
    let start = job.start;
    let rows = job.table.len() / 5;
    println!(rt; "The machine:")?;
    println!(rt; "  a table of {states} states and {rows} transitions, start {start}")?;
    if let Some((mailbox, shared)) = job.mailbox.and_then(mailbox_of) {
        print_mailbox(rt, &mailbox)?;
        print_set(rt, "  shared actions:", &shared)?;
    }
    if let Some(Ok(set)) = job.hiding.map(ActionSet::try_from) {
        print_set(rt, "  hidden actions:", &set)?;
    }
    if let [_, _, _, high, low, ..] = report {
        let all = u16::from_be_bytes([*high, *low]);
        println!(rt; "  {all} states in all")?;
    }
    Ok(())
}
