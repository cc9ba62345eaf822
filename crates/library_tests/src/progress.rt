//! How far a check came.

use crate::expect::same;
use judge_words::asked::Asked;
use judging::checking::check;
use judging::opened::read_standard;
use judging::progress::Progress;
use startup::Verdict;
use std::alloc::Global;
use std::test::Fail;

const CONFIG: &str = "sector_size = 512\nsectors = 4096\nmax_transfer = 64\ndepth = 2\nwindow = 2\n\
    [[partition]]\nfirst = 2048\ncount = 4\n";

/// A write that is at the adapter through a pause, and its answer before its time.
const TRACE: &str =
    "# a write\ncall 1 write 0 512 in 0 a5*512\n\nstart 1 tag 0 2a000000080000000100\npause\nresume\n\
    answer 1 SUCCESS 512\n";

/// What is said of how far a check came, each time after this many labels. The last label is refused.
fn said(alloc: Global, every: u64) -> Option<Vec<u8>> {
    let mut out: Vec<u8> = Vec::new(alloc);
    let mut progress = Progress {
        out: Vec::new(alloc),
        every,
    };
    let asked = Asked {
        any_cut: false,
        any_tag: false,
        any_read: false,
        many: false,
        whole_disk: false,
        gaps: false,
        settled: false,
        ended: false,
        json: false,
    };
    let Ok(standard) = read_standard(alloc, CONFIG.as_bytes(), asked) else {
        return None;
    };
    match check(alloc, &standard, TRACE.as_bytes(), &mut out, &mut progress) {
        Ok(Verdict::Failed) => Some(progress.out),
        _ => None,
    }
}

#[test]
fn it_is_said_how_far_a_check_came(rt: HostRuntime) -> Result<(), Fail> {
    let told = said(rt.alloc(), 2).ok_or("no verdict")?;
    let wanted = "stackjudge: 2 labels, legal so far\nstackjudge: 4 labels, legal so far\n";
    same(&rt, &told.as_slice(), &wanted.as_bytes());
    let told = said(rt.alloc(), 5).ok_or("no verdict")?;
    same(&rt, &told.len(), &0);
    let told = said(rt.alloc(), 0).ok_or("no verdict")?;
    same(&rt, &told.len(), &0);
    Ok(())
}
