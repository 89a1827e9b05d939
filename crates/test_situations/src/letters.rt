// The twelve situations, each under its words in paper 01, as the requests of paper 02 have changed them: a
// commit answers the octet of those that it made stale, beside which their number is tested; both commits of
// j pass; in d, e and k a first commit fills file 0 with zeros.
use crate::script::{run_lines, sighted_alone, stands, start, start_filled};
use limits::{FILE_END, RECORDS};
use store::Store;

// T0 writes AB, T1 writes CD, both on 0. Commit T1, T0: both answer 0. File 0 begins CDAB, offset 4.
pub fn a(store: &mut Store) -> bool {
    let calls = b"W0 0 AB\nW1 0 CD\nC1\nC0\n";
    let replies = b"ok\nok\nok 0 0\nok 0 0\n";
    let begun = start(store);
    let ran = run_lines(store, calls, replies);
    begun & ran & stands(store, b"CDAB", 4)
}

// T0 GetFilePointer on 0: 0. T1 writes A on 0, commits: 1. Commit T0: 13.
pub fn b(store: &mut Store) -> bool {
    let calls = b"P0 0\nW1 0 A\nC1\nC0\n";
    let replies = b"ok 0\nok\nok 1 1\n13\n";
    let begun = start(store);
    let ran = run_lines(store, calls, replies);
    begun & ran & stands(store, b"A\0", 1)
}

// T0 on 0: Seek 0, write AB, Seek 0, read 2: AB. T1 on 8: Seek 0, write XY, commit: 0. T0 commits; file
// begins AB.
pub fn c(store: &mut Store) -> bool {
    let calls = b"S0 0 0\nW0 0 AB\nS0 0 0\nR0 0 2\nS1 8 0\nW1 8 XY\nC1\n";
    let replies = b"ok\nok\nok\nok 4142\nok\nok\nok 0 0\n";
    let begun = start(store);
    let ran = run_lines(store, calls, replies);
    let set = stands(store, b"XY", 0);
    let passed = run_lines(store, b"C0\n", b"ok 0 0\n");
    begun & ran & set & passed & stands(store, b"AB", 2)
}

// As c, but T0 reads 3 and T1 writes Z at 2: T1 answers 1, T0 13.
fn shown(store: &mut Store) -> bool {
    let calls = b"S0 0 0\nW0 0 AB\nS0 0 0\nR0 0 3\nS1 8 2\nW1 8 Z\nC1\nC0\n";
    let replies = b"ok\nok\nok\nok 414200\nok\nok\nok 1 1\n13\n";
    let begun = start_filled(store);
    let ran = run_lines(store, calls, replies);
    begun & ran & stands(store, b"\0\0Z\0", FILE_END)
}

// With Z at 3: 0, and T0 passes.
fn not_shown(store: &mut Store) -> bool {
    let calls = b"S0 0 0\nW0 0 AB\nS0 0 0\nR0 0 3\nS1 8 3\nW1 8 Z\nC1\nC0\n";
    let replies = b"ok\nok\nok\nok 414200\nok\nok\nok 0 0\nok 0 0\n";
    let begun = start_filled(store);
    let ran = run_lines(store, calls, replies);
    begun & ran & stands(store, b"AB\0Z", 3)
}

// As c, but T0 reads 3 and T1 writes Z at 2: T1 answers 1, T0 13. With Z at 3: 0, and T0 passes.
pub fn d(store: &mut Store) -> bool {
    shown(store) & not_shown(store)
}

// T0 on 0: Seek 0, read 1. T1 writes byte 0 with value 0 on 8 after Seek 0: commit 1, T0 13.
pub fn e(store: &mut Store) -> bool {
    let calls = b"S0 0 0\nR0 0 1\nS1 8 0\nW1 8 \0\nC1\nC0\n";
    let replies = b"ok\nok 00\nok\nok\nok 1 1\n13\n";
    let begun = start_filled(store);
    let ran = run_lines(store, calls, replies);
    begun & ran & stands(store, b"\0\0", FILE_END)
}

// T0 on 0: write A, Seek 0, read 1: A. T1 on 0: Seek 5, commit: 1. T0 13.
pub fn f(store: &mut Store) -> bool {
    let calls = b"W0 0 A\nS0 0 0\nR0 0 1\nS1 0 5\nC1\nC0\n";
    let replies = b"ok\nok\nok 41\nok\nok 1 1\n13\n";
    let begun = start(store);
    let ran = run_lines(store, calls, replies);
    begun & ran & stands(store, b"\0", 5)
}

// T0 writes Q on 8; on 0 Seek 0, read 1: Q; one sighting, the offset of 8.
pub fn g(store: &mut Store) -> bool {
    let calls = b"W0 8 Q\nS0 0 0\nR0 0 1\n";
    let replies = b"ok\nok\nok 51\n";
    let begun = start(store);
    let ran = run_lines(store, calls, replies);
    begun & ran & sighted_alone(store, 8)
}

// T0 Seek 4,096 on 0, commit. T1 writes A on 0, commit: 12. T2 Seek 0, commit. T1 commits: A at 0, offset 1.
pub fn h(store: &mut Store) -> bool {
    let begun = start(store);
    let refused = run_lines(
        store,
        b"S0 0 4096\nC0\nW1 0 A\nC1\n",
        b"ok\nok 0 0\nok\n12\n",
    );
    let left = stands(store, b"\0", FILE_END);
    let passed = run_lines(store, b"S2 0 0\nC2\nC1\n", b"ok\nok 0 0\nok 0 0\n");
    begun & refused & left & passed & stands(store, b"A\0", 1)
}

// T0 on 0: write A, Seek 9, GetFilePointer 9. T1 on 0: Seek 4, commit: 0. T0 commits: A at 4, offset 9.
pub fn i(store: &mut Store) -> bool {
    let calls = b"W0 0 A\nS0 0 9\nP0 0\nS1 0 4\nC1\nC0\n";
    let replies = b"ok\nok\nok 9\nok\nok 0 0\nok 0 0\n";
    let begun = start(store);
    let ran = run_lines(store, calls, replies);
    begun & ran & stands(store, b"\0\0\0\0A\0", 9)
}

// T0 and T1 each GetFilePointer on 0. Both commits answer 0.
pub fn j(store: &mut Store) -> bool {
    let calls = b"P0 0\nP1 0\nC0\nC1\n";
    let replies = b"ok 0\nok 0\nok 0 0\nok 0 0\n";
    let begun = start(store);
    let ran = run_lines(store, calls, replies);
    begun & ran & stands(store, b"\0", 0)
}

// Seek 4,096 passes, 4,097 is 8. At 4,096 a write of 1 is 9, of 0 passes. From 4,095 a read of 2 gives 1.
pub fn k(store: &mut Store) -> bool {
    let calls = b"S0 0 4096\nS0 0 4097\nP0 0\nW0 0 A\nW0 0 \nS0 0 4095\nR0 0 2\nP0 0\n";
    let replies = b"ok\n8\nok 4096\n9\nok\nok\nok 00\nok 4096\n";
    let begun = start_filled(store);
    begun & run_lines(store, calls, replies)
}

// 64 writes of 0 bytes pass, the 65th is 10; one that also runs past the end is 9.
pub fn l(store: &mut Store) -> bool {
    let mut ok = start(store);
    for _ in 0..RECORDS {
        ok &= run_lines(store, b"W0 0 \n", b"ok\n");
    }
    ok & run_lines(store, b"W0 0 \nS0 0 4096\nW0 0 A\n", b"10\nok\n9\n")
}
