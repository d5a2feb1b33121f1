// Runs the cases that standard input names, one to a line, and prints those that go wrong:
//
//     list NAME           the listing of NAME.bundle is NAME.list
//     job NAME            the records of NAME.bundle have the stamps, tracks and kinds of NAME.out
//     number N HEX        N packs as HEX and is read back from it
//     unfit N             N is not packed
//     short N LEN NEEDED  N is not packed into LEN bytes, and NEEDED are needed
//     refused WHAT        a record with an unknown kind, a wide number, a long name, a late stamp or a
//                         last stamp past the limit is not packed
//
// A bundle with no fault is also packed again, track by track, to the bytes that it came from.

#![tactic(auto)]

mod cases;

fn run(rt: &HostRuntime) -> anyhow::Result<()> {
    let mut count = 0u64;
    let mut wrong = 0u64;
    for line in rt.lines(rt.alloc()) {
        let line = line?;
        count = count.saturating_add(1);
        if !cases::holds(rt, line.as_str())? {
            wrong = wrong.saturating_add(1);
            println!(rt; "wrong: {line}")?;
        }
    }
    println!(rt; "{count} cases, {wrong} wrong")?;
    Ok(())
}

fn main(rt: HostRuntime) -> anyhow::Result<()> {
    run(&rt)
}
