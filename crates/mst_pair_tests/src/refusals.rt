//! A run that runs out of memory.

use crate::devices::serve;
use crate::runs::PULLS;

/// The replies to `PULLS` where one of its lines was refused memory: a put, the line `diff a`, the first pull before it
/// joined a row and after it did, and the second pull before and after it joined the row that lacked.
const REFUSED: [&[u8]; 8] = [
    b"no memory\nok\nok\nbananas pl\xc3\xa1tanos\nend\nbananas pl\xc3\xa1tanos\nend\njoined 2\nbananas 1\npl\xc3\xa1tanos 1\nend\nsame\nend\njoined 0\nsame\n",
    b"ok\nno memory\nok\nend\nend\njoined 0\ndonkey 1\nend\ndiffer\ndonkey donkey\nend\njoined 1\ndiffer\n",
    b"ok\nok\nno memory\nbananas bananas\nend\nbananas bananas\nend\njoined 1\nbananas 1\ndonkey 1\nend\ndiffer\nbananas donkey\nend\njoined 2\nsame\n",
    b"ok\nok\nok\nno memory\nbananas pl\xc3\xa1tanos\nend\njoined 2\nbananas 1\ndonkey 1\npl\xc3\xa1tanos 1\nend\ndiffer\nbananas pl\xc3\xa1tanos\nend\njoined 3\nsame\n",
    b"ok\nok\nok\nbananas pl\xc3\xa1tanos\nend\nno memory\ndonkey 1\nend\ndiffer\nend\njoined 0\ndiffer\n",
    b"ok\nok\nok\nbananas pl\xc3\xa1tanos\nend\nno memory\nbananas 1\ndonkey 1\nend\ndiffer\nend\njoined 0\ndiffer\n",
    b"ok\nok\nok\nbananas pl\xc3\xa1tanos\nend\nbananas pl\xc3\xa1tanos\nend\njoined 2\nbananas 1\ndonkey 1\npl\xc3\xa1tanos 1\nend\ndiffer\nno memory\ndiffer\n",
    b"ok\nok\nok\nbananas pl\xc3\xa1tanos\nend\nbananas pl\xc3\xa1tanos\nend\njoined 2\nbananas 1\ndonkey 1\npl\xc3\xa1tanos 1\nend\ndiffer\nno memory\nsame\n",
];

/// `rt try --test --fail-alloc N -- answers_where_memory_is_refused` refuses the Nth allocation. A line that needed it
/// answers `no memory`, and the replies are those that the rows then give.
#[test]
fn answers_where_memory_is_refused(rt: HostRuntime) {
    let (input, stored) = PULLS;
    let (result, taken) = serve(rt.alloc(), input, 100, false, 1024, false);
    assert!(rt; result == Ok(()));
    assert!(rt;
        taken.as_slice() == stored || REFUSED.iter().any(|refused| taken.as_slice() == *refused)
    );
}
