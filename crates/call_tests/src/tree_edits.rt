//! What edits leave, and where sequential dependents stand.

use crate::trees::{
    A1, A1_AUDIT_4, A1_AUDIT_9, A1_D1, A1_L1, A1_L1_Y1, A1_L1_Y1_N1, A1_L2, A2, A2_AUDIT_7, A3,
    Call, Steps, all_answer,
};
use std::test::Fail;

const A9: Steps = &[(0, b"A9", 0)];

/// A segment goes with all below it; its twins stay.
const DELETED: &[Call] = &[
    Call::Delete(A1_L1, true),
    Call::Delete(A1_L1, false),
    Call::Delete(A1_L1_Y1_N1, false),
    Call::Find(None, None, &[(6, None)], None),
    Call::Find(None, None, &[(2, None)], Some(A1_L2)),
    Call::Insert(A1_L1, true),
    Call::Find(None, Some(A1_L1), &[], None),
    Call::Delete(A1, true),
    Call::Find(None, None, &[], Some(A2)),
];

/// A segment has other bytes; what is below it stays.
const REPLACED: &[Call] = &[
    Call::Shows(&[(3, None)], b"D1."),
    Call::Replace(A1_D1, b"D1!", true),
    Call::Shows(&[(3, None)], b"D1!"),
    Call::Replace(A2, b"A2!", true),
    Call::Shows(&[(0, Some(b"A2"))], b"A2!"),
    Call::Find(Some(A2), None, &[], Some(A2_AUDIT_7)),
    Call::Replace(A9, b"A9!", false),
    Call::Replace(A1_L1_Y1, b"Y1!", true),
    Call::Shows(&[(5, None)], b"Y1!"),
];

/// Roots in front, between and behind, and the last one gone.
const ROOTS: &[Call] = &[
    Call::Insert(A9, true),
    Call::Find(Some(A3), None, &[(0, None)], Some(A9)),
    Call::Delete(A9, true),
    Call::Find(Some(A3), None, &[(0, None)], None),
    Call::Delete(A9, false),
    Call::Delete(&[], false),
];

const A1_AUDIT_5: Steps = &[(0, b"A1", 0), (1, b"", 5)];

/// Dependents stand newest first and in front of other children, below their root alone; a position need not stand.
const DEPENDENTS: &[Call] = &[
    Call::Find(Some(A1), None, &[], Some(A1_AUDIT_9)),
    Call::Find(Some(A1_AUDIT_9), None, &[], Some(A1_AUDIT_4)),
    Call::Find(Some(A1_AUDIT_5), None, &[], Some(A1_AUDIT_4)),
    Call::Find(Some(A1_AUDIT_4), None, &[], Some(A1_L1)),
    Call::Find(None, Some(A1), &[], Some(A1_AUDIT_9)),
    Call::Find(None, Some(A1_AUDIT_9), &[], None),
    Call::Find(None, None, &[(1, None)], Some(A1_AUDIT_9)),
    Call::Find(Some(A1_AUDIT_4), Some(A1), &[(1, None)], None),
    Call::Find(Some(A1_AUDIT_4), None, &[(1, None)], Some(A2_AUDIT_7)),
    Call::Find(None, None, &[(3, Some(b"D1")), (2, None)], None),
];

static RUNS: [(&str, &[Call]); 4] = [
    ("a delete takes all below", DELETED),
    ("a replace leaves what is below", REPLACED),
    ("roots come and go", ROOTS),
    ("dependents stand newest first", DEPENDENTS),
];

#[test]
fn edits_leave_what_is_wanted(rt: HostRuntime) -> Result<(), Fail> {
    for (name, calls) in &RUNS {
        assert!(rt; all_answer(rt.alloc(), calls)?, "{name}");
    }
    Ok(())
}
