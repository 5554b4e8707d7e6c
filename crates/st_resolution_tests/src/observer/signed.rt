//! Signed operations of one identifier, in entries of their own.
use super::stories::first_other;
use std::test::Fail;

// A create and eight updates, each of which adds a service. The deltas of the fourth are received
// last, and then the entry of a ninth update, whose files are all there.
const UPDATES: &str = "begin begin.index begin.chunk +begin|services signed s0
add1 add1.index add1.proof add1.chunk +add1
add2 add2.index add2.proof add2.chunk +add2
add3 add3.index add3.proof add3.chunk +add3
add4 add4.index add4.proof +add4
add5 add5.index add5.proof add5.chunk +add5
add6 add6.index add6.proof add6.chunk +add6
add7 add7.index add7.proof add7.chunk +add7
add8 add8.index add8.proof add8.chunk +add8
add9 add9.index add9.proof add9.chunk|services signed s0 s1 s2 s3
add4.chunk|applied 16|services signed s0 s1 s2 s3 s4 s5 s6 s7 s8
+add9|applied 8|services signed s0 s1 s2 s3 s4 s5 s6 s7 s8 s9";

#[test]
fn updates_fill_a_document_in_the_order_of_the_ledger(rt: HostRuntime) -> Result<(), Fail> {
    match first_other(&rt, UPDATES) {
        Some(line) => Err(Fail::from(line)),
        None => Ok(()),
    }
}

// Two recovers reveal one key, at two heights: the first adds service s21, the second s22. The
// first acts; after it is cut, the second acts when it is anchored again.
const RECOVERS: &str = "begin begin.index begin.chunk +begin|services signed s0
first first.proof first.index first.chunk +first|services signed s21
second second.proof second.index second.chunk +second|services signed s21|operations signed 3
-1|applied 7|services signed s0
+second|applied 8|services signed s22|operations signed 2";

#[test]
fn the_second_recover_acts_where_the_first_was_cut(rt: HostRuntime) -> Result<(), Fail> {
    match first_other(&rt, RECOVERS) {
        Some(line) => Err(Fail::from(line)),
        None => Ok(()),
    }
}
