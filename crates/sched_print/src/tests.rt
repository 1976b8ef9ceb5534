use super::*;
use std::test::*;

#[test]
fn each_kind_is_printed(rt: HostRuntime) -> Result<(), Fail> {
    let text =
        b"# a run\nrp-schedule 1\n\nswitches 8\nchain 5\nlease 200 201\nratio 5\nmode snapshot 100\n\
feed 7 6AbC\nfeedat s7 65535 -\ndeliver 65535\nnext\ndrop 0\n# time\ntime 0 1 2 3 4 5 6 7 8 9 10 11 1000000000\n\
alarm r4\nfail s7\nboot s6\ndetect r0\nannounce";
    let want = b"rp-schedule 1\nswitches 8\nchain 5\nlease 200 201\nratio 5\nmode snapshot 100\n\
feed 7 6abc\nfeedat s7 65535 -\ndeliver 65535\nnext\ndrop 0\ntime 0 1 2 3 4 5 6 7 8 9 10 11 1000000000\n\
alarm r4\nfail s7\nboot s6\ndetect r0\nannounce\n";
    let schedule = sched_lang::read(rt.alloc(), text)
        .ok()
        .ok_or("the text is a schedule")?;
    assert_eq!(rt; print(rt.alloc(), &schedule)?.as_slice(), want.as_slice());
    Ok(())
}

#[test]
fn a_strict_schedule(rt: HostRuntime) -> Result<(), Fail> {
    let text =
        b"rp-schedule 1\nswitches 1\nchain 1\nlease 1000 1100\nratio 50\nmode strict\nfeed 7 6121\nnext\n";
    let schedule = sched_lang::read(rt.alloc(), text)
        .ok()
        .ok_or("the text is a schedule")?;
    assert_eq!(rt; print(rt.alloc(), &schedule)?.as_slice(), text.as_slice());
    Ok(())
}
